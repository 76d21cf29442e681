// How many values ranges that stand in the table's bytes have, repeats kept. Only spans count.
ghost use Rattle.std.specs.Prelude.{◌≡◌, suc, ◌-◌, ◌≤◌, min};
ghost use Rattle.model.specs.Format.{range_record};
ghost use Rattle.model.specs.Ranges.{size, sizes};
ghost use Rattle.model.specs.Raw.{ranges_at};

use crate::value_at;
use words::bytes::{byte, read8};

// How many values a span has; no more than 2^60.
pub fn span_size(a: u64, b: u64) -> u64
    ensures { result ≡ min (suc b - a) 1152921504606846976 }
{
    if b < a {
        0
    } else {
        (b - a).min(1152921504606846975) + 1
    }
}

// The same of the range at at.
pub fn size_at(t: &[u8], at: usize) -> u64
    requires { at ≤ 4000000000 }
    ensures { result ≡ min (size (range_record t.now at)) 1152921504606846976 }
{
    let kind = byte(t, at);
    let a = read8(t, at + 1);
    let b = read8(t, at + 9);
    if kind == 0 {
        return span_size(value_at(a), value_at(b));
    }
    0
}

// All values of n ranges from start on.
pub fn sizes_at(t: &[u8], start: usize, n: usize) -> u64
    requires { (start ≤ 2000000000) × (n ≤ 65535) × (sizes (ranges_at t.now start n) ≤ 1152921504606846976) }
    ensures { result ≡ sizes (ranges_at t.now start n) }
{
    let mut sum: u64 = 0;
    let mut at = start;
    for i in 0..n {
        sum += size_at(t, at);
        at += 17;
    }
    sum
}
