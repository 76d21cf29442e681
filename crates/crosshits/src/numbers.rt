// The numbers of a cross's hit products: one hit part of each point, the last point turning fastest.
ghost use Rattle.std.specs.Prelude.{◌≡◌, ◌+◌, ◌≤◌, length};
ghost use Rattle.arrays.specs.Put.{put};
ghost use Rattle.crosshits.specs.Numbers.{Ready, hit_total, turn_numbers};

use arrays::element;
use products::shapes::{Shape, inner_of};
use words::bytes::byte;

// How many hit products n points have, whose numbers stand from byte `point` on.
pub fn hit_count(t: &[u8], found: &[u16], point: usize, n: usize) -> usize
    requires { (point ≤ 65540) × (n ≤ 4) }
    ensures { result ≡ hit_total t.now found.now point n }
{
    let mut total: usize = 1;
    for i in (0..n).rev() {
        let p = byte(t, point + i) as usize;
        total *= element(found, 257 * p) as usize;
    }
    total
}

// Position q of the cross, whose point's number stands at byte `point`. `first` is the number of the first product with the parts chosen so far, `at` the place of the next number.
#[derive(Clone, Copy)]
pub struct Turn {
    pub at: usize,
    pub first: usize,
    pub point: usize,
    pub q: usize,
}

// The numbers of the hit products with the parts chosen so far. Answers where the next one stands.
pub fn put_numbers(list: &mut [u16], t: &[u8], found: &[u16], s: Shape, x: Turn) -> usize
    requires { Ready t.now found.now s x × (x.at + length (turn_numbers t.now found.now s x) ≤ length list.old) }
    ensures { (result ≡ x.at + length (turn_numbers t.now found.now s x)) × (list.new ≡ put x.at (turn_numbers t.now found.now s x) list.old) }
{
    let at = x.at;
    let first = x.first;
    let q = x.q;
    if s.count <= q {
        list[at] = first as u16;
        return at + 1;
    }
    let point = x.point;
    let inner = inner_of(s, q);
    let row = 257 * (byte(t, point) as usize);
    let n = element(found, row) as usize;
    let mut e = at;
    for i in 0..n {
        let d = element(found, row + 1 + i) as usize;
        let y = Turn {
            at: e,
            first: first + d * inner,
            point: point + 1,
            q: q + 1,
        };
        e = put_numbers(list, t, found, s, y);
    }
    e
}
