// The least value from a number up of ranges that stand in the table's bytes. Values are numbers as in the definitions: the value plus 2^31.
ghost use Rattle.std.specs.Prelude.{◌≡◌, ◌+◌, ◌-◌, ◌/◌, ◌≤◌, min, max};
ghost use Rattle.model.specs.Table.{span, pattern};
ghost use Rattle.model.specs.Format.{range_record};
ghost use Rattle.model.specs.Ranges.{pattern_from, next_in_range, next_in};
ghost use Rattle.model.specs.Raw.{ranges_at};

use crate::value_at;
use words::bytes::{byte, read8};

// The quotient, at most last.
pub fn capped(x: u64, share: u64, last: u64) -> u64
    requires { 1 ≤ share }
    ensures { result ≡ min (x / share) last }
{
    if last == 0 {
        return 0;
    }
    (x / share).min(last)
}

// The least number from x up whose n low bits are those of bits wherever mask has a 1: found for the halves first.
fn pattern_from(n: u8, bits: u64, mask: u64, x: u64) -> u64
    requires { (n ≤ 32) × (x ≤ 4611686018427387904) }
    ensures { (result ≡ pattern_from n bits mask x) × (result ≤ x + 8589934592) }
{
    if n == 0 {
        return x;
    }
    let from = (x + mask % 2).saturating_sub(bits % 2) / 2;
    let half = pattern_from(n - 1, bits / 2, mask / 2, from);
    x.max(2 * half + bits % 2)
}

// The least number from x up that fits the pattern.
pub fn next_pattern(bits: u64, mask: u64, x: u64) -> u64
    requires { x ≤ 4611686018427387904 }
    ensures { (result ≡ pattern_from 32 bits mask x) × (result ≤ x + 8589934592) }
{
    pattern_from(32, bits, mask, x)
}

// The least number from lo to hi from x up, or 2^33.
pub fn next_in_span(lo: u64, hi: u64, x: u64) -> u64
    ensures { result ≡ next_in_range (span lo hi) x }
{
    let from = lo.max(x);
    if x <= hi { from } else { 8589934592 }
}

pub fn next_in_pattern(bits: u64, mask: u64, x: u64) -> u64
    requires { x ≤ 8589934592 }
    ensures { result ≡ next_in_range (pattern bits mask) x }
{
    let number = x.saturating_sub(2147483648);
    2147483648 + next_pattern(bits, mask, number)
}

// The least value from x up of the range at at, or a number from 2^33 up.
fn next_at(t: &[u8], at: usize, x: u64) -> u64
    requires { (at ≤ 4000000000) × (x ≤ 8589934592) }
    ensures { result ≡ next_in_range (range_record t.now at) x }
{
    let kind = byte(t, at);
    let a = read8(t, at + 1);
    let b = read8(t, at + 9);
    if kind == 0 {
        return next_in_span(value_at(a), value_at(b), x);
    }
    next_in_pattern(a, b, x)
}

// The same of n ranges from start on; 2^33 where there is none.
pub fn next_in(t: &[u8], start: usize, n: usize, x: u64) -> u64
    requires { (start ≤ 2000000000) × (n ≤ 65535) }
    ensures { (result ≡ next_in (ranges_at t.now start n) x) × (result ≤ 8589934592) }
{
    let from = x.min(8589934592);
    let mut best: u64 = 8589934592;
    let mut at = start;
    for i in 0..n {
        let v = next_at(t, at, from);
        best = best.min(v);
        at += 17;
    }
    best
}
