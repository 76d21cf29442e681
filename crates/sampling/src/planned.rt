// What a table's values say before any sample: which cover bins still hold one, and which products each cross bin selects. x is the table's index.
ghost use Rattle.std.specs.Prelude.{◌≡◌, true, ◌+◌, ◌*◌, ◌≤◌, ◌<◌, length, get_or, drop};
ghost use Rattle.model.specs.Format.{accepted, table_of};
ghost use Rattle.model.specs.Counters.{has_value};
ghost use Rattle.model.specs.Register.{point_total};
ghost use Rattle.arrays.specs.Flat.{Tells, Origins};
ghost use Rattle.meets.specs.Plan.{plan_need, ValuesPlan};
ghost use Rattle.crosses.specs.Marked.{mark_total, Marked};
ghost use Rattle.sampling.specs.Index.{Indexed, plan_room};

use crate::Index;
use crosses::marked::mark_all;
use layout::bin_sections;
use meets::plan::put_has;
use origins::put_origins;
use pieces::build::put_plan;
use spans::part::own_parts;

// The plan of the table's values, and in `lists` its bounds and, from element 64 on, the origins of the cover bins.
pub fn put_first(plan: &mut [u64], lists: &mut [u16], t: &[u8])
    requires { (accepted t.now ≡ true) × (plan_need (table_of t.now) ≤ length plan.old) × (64 + 256 * point_total (table_of t.now) ≤ length lists.old) }
    ensures { ValuesPlan (table_of t.now) plan.new lists.new × Origins (table_of t.now) (drop 64 lists.new) }
{
    let parts = own_parts(t);
    put_plan(plan, &mut lists[..64], t, parts);
    put_origins(&mut lists[64..], t, parts);
}

// In arrays that have room for the plan, and for its bounds and the origins.
fn plan_in(
    has: &mut [u8],
    marks: &mut [u16],
    plan: &mut [u64],
    lists: &mut [u16],
    t: &[u8],
    x: Index,
)
    requires t_value { (accepted t.now ≡ true) × Indexed (table_of t.now) x × (plan_need (table_of t.now) ≤ length plan.old) × (64 + 256 * point_total (table_of t.now) ≤ length lists.old) }
    requires t_in_bounds { (256 * point_total (table_of t.now) ≤ length has.old) × (mark_total (table_of t.now) ≤ length marks.old) }
    ensures { Tells (has_value (table_of t.now)) (table_of t.now) has.new × Marked (table_of t.now) marks.new }
{
    let counts = x.counts;
    put_first(plan, lists, t);
    put_has(has, t, plan, lists, &counts);
    mark_all(marks, t, &counts, plan, lists);
}

// In arrays of so many elements. It is not inlined: each size has a frame of its own.
#[inline(never)]
fn planned_with<const PLAN: usize, const LISTS: usize>(
    has: &mut [u8],
    marks: &mut [u16],
    t: &[u8],
    x: Index,
)
    requires t_value { (accepted t.now ≡ true) × Indexed (table_of t.now) x × (plan_need (table_of t.now) ≤ PLAN) × (64 + 256 * point_total (table_of t.now) ≤ LISTS) × (PLAN < 65536) × (LISTS < 65536) }
    requires t_in_bounds { (256 * point_total (table_of t.now) ≤ length has.old) × (mark_total (table_of t.now) ≤ length marks.old) }
    ensures { Tells (has_value (table_of t.now)) (table_of t.now) has.new × Marked (table_of t.now) marks.new }
{
    let mut plan = [0u64; PLAN];
    let mut lists = [0u16; LISTS];
    plan_in(has, marks, &mut plan, &mut lists, t, x);
}

// At least as many words as the plan of the table's values needs, whose value bins have so many ranges.
pub fn plan_words(ranges: usize, x: Index) -> usize
    requires { (ranges < 65536) × (x.points ≤ 16) × (get_or x.starts x.points 0 ≤ 4096) }
    ensures { result ≡ plan_room ranges x }
{
    let starts = x.starts;
    let n = x.points;
    let counters = starts[n] as usize;
    9 * ranges + 2 * (counters + n) + 7 * n
}

// Which cover bins still hold a value, 256 bytes for each point, and the marks of the products of all crosses. A small table does not pay for the clearing of large arrays.
pub fn put_planned(has: &mut [u8], marks: &mut [u16], t: &[u8], x: Index)
    requires t_value { (accepted t.now ≡ true) × Indexed (table_of t.now) x }
    requires t_in_bounds { (256 * point_total (table_of t.now) ≤ length has.old) × (mark_total (table_of t.now) ≤ length marks.old) }
    ensures { Tells (has_value (table_of t.now)) (table_of t.now) has.new × Marked (table_of t.now) marks.new }
{
    let l = bin_sections(t);
    let need = plan_words(l.range_count, x);
    if (x.points <= 4) & (need <= 768) {
        return planned_with::<768, 1088>(has, marks, t, x);
    }
    if need <= 4096 {
        return planned_with::<4096, 4160>(has, marks, t, x);
    }
    planned_with::<17552, 4160>(has, marks, t, x)
}
