// How many counters a cross has.
ghost use Rattle.std.specs.Prelude.{◌≡◌, ◌<◌, ◌≤◌, length};
ghost use Rattle.model.specs.Counters.{cross_counters};
ghost use Rattle.model.specs.Format.{kind_from, table_of};
ghost use Rattle.products.specs.Shapes.{Fits, Stands};
ghost use Rattle.crosses.specs.Flags.{heads_at, label_of};
ghost use Rattle.crosses.specs.Labels.{bin_labels};

use products::places::Place;
use products::shapes::Shape;
use words::bytes::byte;
use words::kinds::Kind;

// One for a cover bin, one for an illegal bin.
fn label_count(kind: u8) -> usize
    ensures { (result ≡ length (label_of 0 0 (kind_from kind))) × (result ≤ 1) }
{
    match Kind::from(kind) {
        Kind::Cover | Kind::Illegal => 1,
        _ => 0,
    }
}

// Those of n bins from b on.
fn bin_count(t: &[u8], b: usize, n: usize) -> usize
    requires { (b < 1000000000000) × (n < 256) }
    ensures { result ≡ length (bin_labels 0 0 (heads_at t.now b n)) }
{
    let mut sum: usize = 0;
    for i in 0..n {
        let k = byte(t, b + 3 * i);
        sum += label_count(k);
    }
    sum
}

// Its cover and illegal bins, and its products.
pub fn counters_of(t: &[u8], p: Place, s: Shape) -> usize
    requires { Stands t.now p × Fits (table_of t.now) p.number s }
    ensures { result ≡ length (cross_counters (table_of t.now) p.number) }
{
    let at = p.cross;
    let k = byte(t, at + 12) as usize;
    let n = bin_count(t, p.bins, k);
    n + s.total
}
