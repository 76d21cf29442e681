// How many different values ranges that stand in the table's bytes have: no more than 257 are told apart, and they are counted by span.
ghost use Rattle.std.specs.Prelude.{◌≡◌, ◌≤◌, min, length, if◌then◌else◌};
ghost use Rattle.model.specs.Table.{span};
ghost use Rattle.model.specs.Format.{byte, range_record};
ghost use Rattle.model.specs.Ranges.{ascending, next_in_range, next_in, sizes};
ghost use Rattle.model.specs.Raw.{ranges_at};
ghost use Rattle.ranges.specs.Counts.{in_order, rising, nearer_of, FirstOf};

use crate::next::{next_in_pattern, next_in_span};
use crate::value_at;
use words::bytes::{byte, read8};

// Values that stand in a row.
#[derive(Clone, Copy)]
pub struct Stretch {
    pub first: u64,
    pub last: u64,
}

// The span at at.
fn span_at(t: &[u8], at: usize) -> Stretch
    requires { (at ≤ 4000000000) × (byte t.now at ≡ 0) }
    ensures { range_record t.now at ≡ span result.first result.last }
{
    let a = value_at(read8(t, at + 1));
    let b = value_at(read8(t, at + 9));
    Stretch { first: a, last: b }
}

// The span stands in order: it does not begin before x, is not empty, and has values only.
fn in_order(x: u64, lo: u64, hi: u64) -> bool
    ensures { result ≡ in_order x lo hi }
{
    (x <= lo) & (lo <= hi) & (hi < 8589934592)
}

// The values of n ranges that are spans and rise from low on; 258 if they are not.
fn rising_count(t: &[u8], start: usize, n: usize, low: u64) -> usize
    requires { (start ≤ 2000000000) × (n ≤ 65535) }
    ensures { result ≡ (if rising (ranges_at t.now start n) low then min 257 (sizes (ranges_at t.now start n)) else 258) }
{
    let mut x = low;
    let mut count: u64 = 0;
    let mut at = start;
    for i in 0..n {
        let kind = byte(t, at);
        if kind != 0 {
            return 258;
        }
        let s = span_at(t, at);
        let lo = s.first;
        let hi = s.last;
        if !in_order(x, lo, hi) {
            return 258;
        }
        count = 257u64.min(count + (hi + 1 - lo));
        x = hi + 1;
        at += 17;
    }
    count as usize
}

// The first values of the range at at from x up that stand in a row; of a pattern the first alone.
fn stretch_at(t: &[u8], at: usize, x: u64) -> Stretch
    requires { (at ≤ 4000000000) × (x ≤ 8589934592) }
    ensures { FirstOf (next_in_range (range_record t.now at)) x result }
{
    let kind = byte(t, at);
    let a = read8(t, at + 1);
    let b = read8(t, at + 9);
    if kind == 0 {
        let lo = value_at(a);
        let hi = value_at(b);
        let first = next_in_span(lo, hi, x);
        return Stretch { first, last: hi };
    }
    let first = next_in_pattern(a, b, x);
    Stretch { first, last: 0 }
}

fn nearer(best: Stretch, other: Stretch) -> Stretch
    ensures { result ≡ nearer_of best other }
{
    if other.first < best.first {
        other
    } else {
        best
    }
}

// The first values of n ranges from x up that stand in a row; the first is 2^33 if there are none.
fn stretch_from(t: &[u8], start: usize, n: usize, x: u64) -> Stretch
    requires { (start ≤ 2000000000) × (n ≤ 65535) × (x ≤ 8589934592) }
    ensures { FirstOf (next_in (ranges_at t.now start n)) x result }
{
    let mut best = Stretch {
        first: 8589934592,
        last: 0,
    };
    let mut at = start;
    for i in 0..n {
        let s = stretch_at(t, at, x);
        best = nearer(best, s);
        at += 17;
    }
    best
}

// How many values from low up n ranges have; 257 if there are more.
fn stretch_count(t: &[u8], start: usize, n: usize, low: u64) -> usize
    requires { (start ≤ 2000000000) × (n ≤ 65535) × (low ≤ 8589934592) }
    ensures { (result ≡ length (ascending 257 (ranges_at t.now start n) low)) × (result ≤ 257) }
{
    let mut x = low;
    let mut count: u64 = 0;
    while count < 257 {
        let s = stretch_from(t, start, n, x);
        let first = s.first;
        if first >= 8589934592 {
            return count as usize;
        }
        let last = first.max(s.last.min(8589934591));
        count = 257u64.min(count + (last + 1 - first));
        x = last + 1;
    }
    count as usize
}

// The same, in one pass where the ranges are spans that rise.
pub fn value_count(t: &[u8], start: usize, n: usize, low: u64) -> usize
    requires { (start ≤ 2000000000) × (n ≤ 65535) × (low ≤ 8589934592) }
    ensures { (result ≡ length (ascending 257 (ranges_at t.now start n) low)) × (result ≤ 257) }
{
    let found = rising_count(t, start, n, low);
    if found <= 257 {
        return found;
    }
    stretch_count(t, start, n, low)
}
