// Which counters a sample hits, by what was worked out of its table once a call.
#![tactic(auto)]

ghost use Rattle.std.specs.Prelude.{◌≡◌, true, ◌+◌, ◌*◌, ◌<◌, ◌≤◌, length, take, drop};
ghost use Rattle.model.specs.Format.{accepted, table_of};
ghost use Rattle.model.specs.Sampling.{Stretches, hits as hit_by};
ghost use Rattle.model.specs.Register.{point_total, counter_total, run_stretches};
ghost use Rattle.arrays.specs.Put.{put};
ghost use Rattle.arrays.specs.Flat.{all_point_counters, all_cross_counters, Readings};
ghost use Rattle.places.specs.Places.{places_from, hit_places, Found};
ghost use Rattle.crosses.specs.Marked.{Marked};
ghost use Rattle.lists.specs.Lists.{marks_at, lists_need, Planned};
ghost use Rattle.lists.specs.Stages.{Listed};

use arrays::element;
use arrays::reading::Reading;
use crosshits::all::put_cross_hits;
use found::all::find_all;
use hits::all::put_point_hits;
use layout::point_count;

// Of the crosses, whose first counter is base, by the cover bins that are found. Answers how many.
fn put_crossed(
    hits: &mut [u16],
    t: &[u8],
    sample: &[u32],
    found: &[u16],
    lists: &[u16],
    base: usize,
) -> usize
    requires t_value { (accepted t.now ≡ true) × Found (table_of t.now) sample.now found.now × Listed (table_of t.now) lists.now × Marked (table_of t.now) (drop (marks_at (table_of t.now)) lists.now) × (lists_need (table_of t.now) ≤ length lists.now) }
    requires base_value { (base ≡ length (all_point_counters (table_of t.now))) × (length (all_cross_counters (table_of t.now)) ≤ length hits.old) }
    ensures { (m : Stretches) → (result ≡ length (places_from (hit_by (table_of t.now) sample.now m) base (all_cross_counters (table_of t.now)))) × (hits.new ≡ put 0 (places_from (hit_by (table_of t.now) sample.now m) base (all_cross_counters (table_of t.now))) hits.old) }
{
    let n = point_count(t);
    let at = 81 + 514 * n;
    let c = element(lists, at) as usize;
    put_cross_hits(hits, t, sample, found, &lists[at + 1 + c..], base)
}

// Of the points and then of the crosses.
fn put_hits(
    hits: &mut [u16],
    t: &[u8],
    sample: &[u32],
    readings: &[Reading],
    lens: &[u32],
    found: &[u16],
    lists: &[u16],
) -> usize
    requires t_value { (accepted t.now ≡ true) × Readings (table_of t.now) sample.now readings.now × (16 ≤ length readings.now) × (64 ≤ length lens.now) × (counter_total (table_of t.now) + 256 ≤ length hits.old) }
    requires found { Found (table_of t.now) sample.now found.now × (257 * point_total (table_of t.now) ≤ length found.now) × Listed (table_of t.now) lists.now × Marked (table_of t.now) (drop (marks_at (table_of t.now)) lists.now) × (lists_need (table_of t.now) ≤ length lists.now) }
    ensures { (result ≡ length (hit_places (table_of t.now) sample.now (run_stretches (take (length (table_of t.now).transition_bins) lens.now)))) × (hits.new ≡ put 0 (hit_places (table_of t.now) sample.now (run_stretches (take (length (table_of t.now).transition_bins) lens.now))) hits.old) }
{
    let n = point_count(t);
    let at = 64 + 256 * n;
    let k = put_point_hits(hits, t, sample, readings, lens, found, &lists[at..]);
    let base = element(lists, 64 + 515 * n) as usize;
    let c = put_crossed(&mut hits[k..], t, sample, found, lists, base);
    k + c
}

// The places of the counters that the sample hits, with room for N elements of cover bins found. It is not inlined: each size has a frame of its own.
#[inline(never)]
fn find_in<const N: usize>(
    hits: &mut [u16],
    t: &[u8],
    sample: &[u32],
    readings: &[Reading],
    lens: &[u32],
    plan: &[u64],
    lists: &[u16],
) -> usize
    requires { (accepted t.now ≡ true) × Readings (table_of t.now) sample.now readings.now × (16 ≤ length readings.now) × (64 ≤ length lens.now) × (counter_total (table_of t.now) + 256 ≤ length hits.old) × Planned (table_of t.now) plan.now lists.now × (257 * point_total (table_of t.now) ≤ N) × (N < 65536) }
    ensures { (result ≡ length (hit_places (table_of t.now) sample.now (run_stretches (take (length (table_of t.now).transition_bins) lens.now)))) × (hits.new ≡ put 0 (hit_places (table_of t.now) sample.now (run_stretches (take (length (table_of t.now).transition_bins) lens.now))) hits.old) }
{
    let mut found = [0u16; N];
    find_all(&mut found, t, sample, readings, plan, lists);
    put_hits(hits, t, sample, readings, lens, &found, lists)
}

// The places of the counters that the sample hits, ascending. Answers how many they are.
pub fn find_hits(
    hits: &mut [u16],
    t: &[u8],
    sample: &[u32],
    readings: &[Reading],
    lens: &[u32],
    plan: &[u64],
    lists: &[u16],
) -> usize
    requires { (accepted t.now ≡ true) × Readings (table_of t.now) sample.now readings.now × (16 ≤ length readings.now) × (64 ≤ length lens.now) × (counter_total (table_of t.now) + 256 ≤ length hits.old) × Planned (table_of t.now) plan.now lists.now }
    ensures { (result ≡ length (hit_places (table_of t.now) sample.now (run_stretches (take (length (table_of t.now).transition_bins) lens.now)))) × (hits.new ≡ put 0 (hit_places (table_of t.now) sample.now (run_stretches (take (length (table_of t.now).transition_bins) lens.now))) hits.old) }
{
    let n = point_count(t);
    if n <= 4 {
        return find_in::<1028>(hits, t, sample, readings, lens, plan, lists);
    }
    if n <= 8 {
        return find_in::<2056>(hits, t, sample, readings, lens, plan, lists);
    }
    find_in::<4112>(hits, t, sample, readings, lens, plan, lists)
}
