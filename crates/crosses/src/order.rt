// The crosses of a table in their order.
ghost use Rattle.std.specs.Prelude.{◌≡◌, List, ℕ, ◌<◌, ◌≤◌, ◌+◌, ◌*◌};
ghost use Rattle.model.specs.Raw.{token_total};
ghost use Rattle.layout.specs.Places.{layout_of};
ghost use Rattle.products.specs.Shapes.{Stands};
ghost use Rattle.crosses.specs.Order.{Nth};

use layout::Layout;
use products::places::Place;
use words::bytes::byte;

// How many tokens n bins from b on have.
fn token_total(t: &[u8], b: usize, n: usize) -> usize
    requires { (b < 1000000000000) × (n < 256) }
    ensures { (result ≡ token_total t.now b n) × (result ≤ 255 * n) }
{
    let mut sum: usize = 0;
    for i in 0..n {
        let k = byte(t, b + 3 * i + 2);
        sum += k as usize;
    }
    sum
}

// The place of the first.
pub fn first_place(l: Layout) -> Place
    ensures { (s : List ℕ) → l ≡ layout_of s → Nth s 0 result }
{
    Place {
        number: 0,
        cross: l.crosses,
        bins: l.cross_bins,
        tokens: l.tokens,
    }
}

// The place after that of a cross.
pub fn next_place(t: &[u8], p: Place) -> Place
    requires { Stands t.now p }
    ensures { Nth t.now (p.number + 1) result }
{
    let at = p.cross;
    let bins = p.bins;
    let k = byte(t, at + 12) as usize;
    let m = token_total(t, bins, k);
    Place {
        number: p.number + 1,
        cross: at + 13,
        bins: bins + 3 * k,
        tokens: p.tokens + 20 * m,
    }
}
