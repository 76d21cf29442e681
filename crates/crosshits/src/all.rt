// The places of all crosses.
ghost use Rattle.std.specs.Prelude.{◌≡◌, true, ◌+◌, ◌≤◌, length, take, drop};
ghost use Rattle.model.specs.Sampling.{Stretches, hits as hit_by};
ghost use Rattle.model.specs.Register.{point_total};
ghost use Rattle.model.specs.Format.{accepted, table_of};
ghost use Rattle.arrays.specs.Put.{put};
ghost use Rattle.arrays.specs.Flat.{cover_counts, all_point_counters, all_cross_counters};
ghost use Rattle.places.specs.Places.{places_from, Found};
ghost use Rattle.crosses.specs.Marked.{Marked};

use crate::counts::counters_of;
use crate::cross::{Cross, put_one};
use crosses::order::{first_place, next_place};
use layout::layout_of;
use products::places::shape_of;

// The counters of crosses that the sample hits. `found` has the hit cover bins of each point; `plan` has how many cover bins each point has, and from element 16 on the marks of all crosses.
// `base` is the first counter of a cross. Answers how many they are.
pub fn put_cross_hits(
    hits: &mut [u16],
    t: &[u8],
    sample: &[u32],
    found: &[u16],
    plan: &[u16],
    base: usize,
) -> usize
    requires t_value { (accepted t.now ≡ true) × Found (table_of t.now) sample.now found.now × (take (point_total (table_of t.now)) plan.now ≡ cover_counts (table_of t.now)) × Marked (table_of t.now) (drop 16 plan.now) }
    requires base_value { (base ≡ length (all_point_counters (table_of t.now))) × (length (all_cross_counters (table_of t.now)) ≤ length hits.old) }
    ensures { (m : Stretches) → (result ≡ length (places_from (hit_by (table_of t.now) sample.now m) base (all_cross_counters (table_of t.now)))) × (hits.new ≡ put 0 (places_from (hit_by (table_of t.now) sample.now m) base (all_cross_counters (table_of t.now))) hits.old) }
{
    let l = layout_of(t);
    let n = l.cross_count;
    let mut at = 0;
    let mut first = base;
    let mut start = 16;
    let mut p = first_place(l);
    for c in 0..n {
        let s = shape_of(t, plan, p);
        let x = Cross {
            place: p,
            shape: s,
            first,
            start,
            at,
        };
        at = put_one(hits, t, sample, found, plan, x);
        first += counters_of(t, p, s);
        start += s.total;
        p = next_place(t, p);
    }
    at
}
