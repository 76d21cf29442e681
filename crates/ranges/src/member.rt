// Membership of a value in ranges that stand in the table's bytes.
ghost use Rattle.std.specs.Prelude.{◌≡◌, ◌≤◌, cond, eqb};
ghost use Rattle.model.specs.Table.{span, pattern};
ghost use Rattle.model.specs.Values.{in_range, in_ranges};
ghost use Rattle.model.specs.Format.{range_record};
ghost use Rattle.model.specs.Raw.{ranges_at};

use crate::value_at;
use words::bytes::{byte, read8};

// The range at at holds the value.
pub fn in_range(t: &[u8], at: usize, v: u64) -> bool
    requires { at ≤ 4000000000 }
    ensures { result ≡ in_range (range_record t.now at) v }
{
    let kind = byte(t, at);
    let a = read8(t, at + 1);
    let b = read8(t, at + 9);
    if kind == 0 {
        let lo = value_at(a);
        let hi = value_at(b);
        (lo <= v) & (v <= hi)
    } else {
        v.saturating_sub(2147483648) & b == a
    }
}

// The range of these words holds the value: a span from a to b (kind 0), or a pattern with bits a under mask b.
pub fn holds(kind: u64, a: u64, b: u64, v: u64) -> bool
    ensures { result ≡ in_range (cond (eqb kind 0) (span a b) (pattern a b)) v }
{
    if kind == 0 {
        (a <= v) & (v <= b)
    } else {
        v.saturating_sub(2147483648) & b == a
    }
}

// One of n ranges from start on holds the value.
pub fn in_ranges(t: &[u8], start: usize, n: usize, v: u64) -> bool
    requires { (start ≤ 2000000000) × (n ≤ 65535) }
    ensures { result ≡ in_ranges (ranges_at t.now start n) v }
{
    let mut at = start;
    for i in 0..n {
        if in_range(t, at, v) {
            return true;
        }
        at += 17;
    }
    false
}
