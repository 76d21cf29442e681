// What is needed of a table for its samples is worked out once, in arrays as large as it needs.
ghost use Rattle.std.specs.Prelude.{◌≡◌, true, ◌<◌, ◌≤◌, ◌+◌};
ghost use Rattle.model.specs.Format.{accepted, table_of};
ghost use Rattle.model.specs.Register.{counter_total};
ghost use Rattle.layout.specs.Places.{layout_of};
ghost use Rattle.refusals.specs.Refusals.{Describes};
ghost use Rattle.sampling.specs.Index.{Roomy, Indexed, Labelled};
ghost use Rattle.samples.specs.Prepared as Plans;
ghost use Rattle.turns.specs.Turns.{Ready, Took, turns};
ghost use Rattle.batch.specs.Sizes.{Sized, room_for};

use arrays::element;
use layout::layout_of;
use lists::COUNTERS_AT;
use samples::prepare::prepare;
use sampling::planned::plan_words;
use sampling::{Index, put_kinds};
use table::answer::Facts;
use turns::{Taken, each};

// ---- size classes: a small table does not pay for the clearing of large arrays, nor for their room on the stack. What declares arrays is not inlined: each size has a frame of its own.

// All samples, in turn, by what was worked out of the table, with room for so many hits.
#[inline(never)]
fn hits_with<const HITS: usize>(
    register: &mut [u32],
    reports: &mut [u32],
    t: &[u8],
    s: &[u32],
    plan: &[u64],
    lists: &[u16],
) -> Taken
    requires { Ready t.now register.old × Plans.Prepared (table_of t.now) plan.now lists.now × (counter_total (table_of t.now) + 256 ≤ HITS) × (HITS < 65536) }
    ensures { Took (turns t.now (table_of t.now) register.old s.now reports.old) result register.new reports.new }
{
    let mut hits = [0u16; HITS];
    each(register, reports, t, s, plan, lists, &mut hits)
}

// All samples, in turn, by what was worked out of the table. The arrays that this took are gone where the places are found.
fn take(
    register: &mut [u32],
    reports: &mut [u32],
    t: &[u8],
    s: &[u32],
    plan: &[u64],
    lists: &[u16],
) -> Taken
    requires { Ready t.now register.old × Plans.Prepared (table_of t.now) plan.now lists.now }
    ensures { Took (turns t.now (table_of t.now) register.old s.now reports.old) result register.new reports.new }
{
    let counters = element(lists, COUNTERS_AT) as usize;
    if counters <= 512 {
        return hits_with::<768>(register, reports, t, s, plan, lists);
    }
    if counters <= 2048 {
        return hits_with::<2304>(register, reports, t, s, plan, lists);
    }
    hits_with::<12672>(register, reports, t, s, plan, lists)
}

// All samples, in turn, with so many words of plan and elements of lists. kinds and x are the table's.
#[inline(never)]
fn plan_with<const PLAN: usize, const LISTS: usize>(
    register: &mut [u32],
    reports: &mut [u32],
    t: &[u8],
    s: &[u32],
    kinds: &[u8],
    x: Index,
) -> Taken
    requires { Ready t.now register.old × Indexed (table_of t.now) x × Labelled (table_of t.now) kinds.now × Sized (table_of t.now) PLAN LISTS × (PLAN < 65536) × (LISTS < 65536) }
    ensures { Took (turns t.now (table_of t.now) register.old s.now reports.old) result register.new reports.new }
{
    let mut plan = [0u64; PLAN];
    let mut lists = [0u16; LISTS];
    prepare(&mut plan, &mut lists, t, kinds, x);
    take(register, reports, t, s, &plan, &lists)
}

// At least as many words as the rows of the sequences and the plan of the values need.
fn room_for(t: &[u8], x: Index) -> usize
    requires { (accepted t.now ≡ true) × Indexed (table_of t.now) x }
    ensures { result ≡ room_for (layout_of t.now) x }
{
    let l = layout_of(t);
    let bins = 2 * l.transition_count + 3 * l.sequence_count;
    let rows = bins + 2 * l.step_count + 4 * l.step_range_count;
    rows + plan_words(l.range_count, x)
}

// All samples, in turn. kinds and x are the table's.
fn planned(
    register: &mut [u32],
    reports: &mut [u32],
    t: &[u8],
    s: &[u32],
    kinds: &[u8],
    x: Index,
) -> Taken
    requires { Ready t.now register.old × Indexed (table_of t.now) x × Labelled (table_of t.now) kinds.now }
    ensures { Took (turns t.now (table_of t.now) register.old s.now reports.old) result register.new reports.new }
{
    let points = x.points;
    let counters = x.counters;
    let need = room_for(t, x);
    if (points <= 4) & (counters <= 512) & (need <= 768) {
        return plan_with::<768, 3178>(register, reports, t, s, kinds, x);
    }
    if (counters <= 2048) & (need <= 4608) {
        return plan_with::<4608, 11074>(register, reports, t, s, kinds, x);
    }
    plan_with::<20432, 17218>(register, reports, t, s, kinds, x)
}

// All samples, in turn, with the kinds of so many counters.
#[inline(never)]
fn kinds_with<const KINDS: usize>(
    register: &mut [u32],
    reports: &mut [u32],
    t: &[u8],
    s: &[u32],
) -> Taken
    requires { Ready t.now register.old × Roomy (table_of t.now) KINDS × (KINDS < 65536) }
    ensures { Took (turns t.now (table_of t.now) register.old s.now reports.old) result register.new reports.new }
{
    let mut kinds = [0u8; KINDS];
    let x = put_kinds(&mut kinds, t);
    planned(register, reports, t, s, &kinds, x)
}

// All samples, in turn: f are the table's facts. Without samples nothing is worked out.
pub fn all(register: &mut [u32], reports: &mut [u32], t: &[u8], s: &[u32], f: Facts) -> Taken
    requires { Ready t.now register.old × Describes f (table_of t.now) }
    ensures { Took (turns t.now (table_of t.now) register.old s.now reports.old) result register.new reports.new }
{
    if s.is_empty() {
        return Taken {
            taken: 0,
            end: Ok(()),
        };
    }
    if (f.points <= 4) & (f.counters <= 1024) {
        return kinds_with::<1024>(register, reports, t, s);
    }
    if f.counters <= 4096 {
        return kinds_with::<4096>(register, reports, t, s);
    }
    kinds_with::<12416>(register, reports, t, s)
}
