// The auto bins of a point.
ghost use Rattle.std.specs.Prelude.{◌≡◌, ◌<◌, ◌≤◌, ◌&&◌, ◌||◌, min, leb, eqb};
ghost use Rattle.model.specs.Format.{point_record};
ghost use Rattle.model.specs.Values.{lowest};
ghost use Rattle.ranges.specs.Types.{Wide};
ghost use Rattle.values.specs.Counts.{autos_of};
ghost use Rattle.values.specs.Points.{some_own, has_auto_at};

use ranges::{lowest, power, type_at};
use words::bytes::{byte, read2};
use words::kinds::Kind;

// A bin of that kind bars auto bins: a cover bin does, a default bin if these count.
fn bars(k: u8, defaults: bool) -> bool
    ensures { result ≡ (eqb k 0 || (defaults && leb 3 k)) }
{
    match Kind::from(k) {
        Kind::Cover => true,
        Kind::Default => defaults,
        _ => false,
    }
}

// One of n records of size bytes is a cover bin of the point, or a default bin if these count.
fn some_own(t: &[u8], start: usize, size: usize, n: usize, p: u8, defaults: bool) -> bool
    requires { (start < 1000000000) × (size ≤ 8) × (n < 65536) }
    ensures { result ≡ some_own t.now p defaults size start n }
{
    // A cursor, since start + size * i would have to be bounded as a product of two variables.
    let mut at = start;
    for i in 0..n {
        let q = byte(t, at);
        let k = byte(t, at + 1);
        if (q == p) & bars(k, defaults) {
            return true;
        }
        at += size;
    }
    false
}

// The point has auto bins: n value bins from a on, k transition bins from b on.
pub fn has_auto(t: &[u8], a: usize, n: usize, b: usize, k: usize, p: u8) -> bool
    requires { (a < 1000000000) × (n < 65536) × (b < 1000000000) × (k < 65536) }
    ensures { result ≡ has_auto_at t.now p a n b k }
{
    let x = some_own(t, a, 8, n, p, true);
    let y = some_own(t, b, 4, k, p, false);
    !x & !y
}

pub fn auto_count(all: u64, most: u16) -> usize
    ensures { result ≡ min all most }
{
    all.min(most as u64) as usize
}

// How many auto bins the point has whose record stands at point. has: it has some.
pub fn auto_total(t: &[u8], point: usize, has: bool) -> usize
    requires { (point < 1000000000) × Wide t.now point }
    ensures { (result ≡ autos_of has (point_record t.now point)) × (result ≤ 65535) }
{
    if !has {
        return 0;
    }
    auto_count(power(byte(t, point)), read2(t, point + 9))
}

// The lowest value of the point's type.
pub fn lowest_at(t: &[u8], point: usize) -> u64
    requires { (point < 1000000000) × Wide t.now point }
    ensures { result ≡ lowest (point_record t.now point) }
{
    lowest(type_at(t, point))
}
