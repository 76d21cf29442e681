// Spans that are apart, looked up by halving.
ghost use Rattle.std.specs.Prelude.{◌≡◌, true, ◌+◌, ◌≤◌};
ghost use Rattle.spans.specs.Point.{free_value};
ghost use Rattle.spans.specs.Spans.{apart, Begun, held_by, free};

use crate::pairs::{high_end, low_end};

// How many spans begin at or below x.
fn begun(spans: &[u64], x: u64) -> usize
    requires { apart spans.now ≡ true }
    ensures { Begun spans.now x result }
{
    spans.partition_point(|w| low_end(*w) <= x)
}

// One of the spans holds x.
pub fn inside(spans: &[u64], x: u64) -> bool
    requires { apart spans.now ≡ true }
    ensures { result ≡ held_by spans.now x }
{
    let k = begun(spans, x);
    0 < k && x <= high_end(spans[k - 1])
}

// The least number from x up that no span holds.
pub fn free_from(spans: &[u64], x: u64) -> u64
    requires { apart spans.now ≡ true }
    ensures { (result ≡ free spans.now x) × (result ≤ x + 4294967296) }
{
    let k = begun(spans, x);
    if k == 0 {
        return x;
    }
    let h = high_end(spans[k - 1]);
    // Not x.max(h + 1): the edit held_end_free slips at h alone.
    if x <= h { h + 1 } else { x }
}

// The least number from v up that no span holds. The spans' ends are offsets from low.
pub fn free_value(spans: &[u64], low: u64, v: u64) -> u64
    requires { (apart spans.now ≡ true) × (low ≤ v) × (v ≤ 8589934592) }
    ensures { (result ≡ free_value spans.now low v) × (result ≤ v + 4294967296) }
{
    low + free_from(spans, v - low)
}
