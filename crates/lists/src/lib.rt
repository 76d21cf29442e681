// The plan of a table's values and the table's lists, made once a call.
#![tactic(auto)]

mod rows;

ghost use Rattle.std.specs.Prelude.{◌≡◌, true, ◌∷◌, ◌<◌, ◌≤◌, ◌+◌, ◌*◌, length, take};
ghost use Rattle.model.specs.Format.{accepted, table_of};
ghost use Rattle.model.specs.Register.{point_total};
ghost use Rattle.arrays.specs.Put.{put};
ghost use Rattle.meets.specs.Plan.{plan_need};
ghost use Rattle.places.specs.Places.{of_kind, places_from};
ghost use Rattle.sampling.specs.Index.{Indexed, Labelled};
ghost use Rattle.lists.specs.Lists.{places_at, counts_at, lists_need, Planned, Ready};
ghost use Rattle.lists.specs.Stages.{Listed};

use crate::rows::put_place_rows;
use crosses::marked::mark_all;
use places::put_illegals;
use sampling::Index;
use sampling::planned::put_first;

// Past the plan's bounds, at most 49 elements, and before the origins of the cover bins stand three numbers of the table: of its transition bins, of the words of their rows, of its counters.
pub const BINS_AT: usize = 61;

pub const ROWS_AT: usize = 62;

pub const COUNTERS_AT: usize = 63;

// The first n elements of another array.
fn copy(out: &mut [u16], from: &[u16], n: usize)
    requires { (n ≤ length from.now) × (n ≤ length out.old) }
    ensures { out.new ≡ put 0 (take n from.now) out.old }
{
    // No copy_from_slice, of which LLVM makes a call of memmove: the library asks for memcpy and memset only.
    for i in 0..n {
        out[i] = from[i];
    }
}

// How many of n counters are illegal, and then their places. Answers how many.
fn put_illegal(out: &mut [u16], kinds: &[u8], n: usize) -> usize
    requires { (n ≤ length kinds.now) × (1 + length (places_from (of_kind 2) 0 (take n kinds.now)) ≤ length out.old) × (n ≤ 65535) }
    ensures { (result ≡ length (places_from (of_kind 2) 0 (take n kinds.now))) × (out.new ≡ put 0 (length (places_from (of_kind 2) 0 (take n kinds.now)) ∷ places_from (of_kind 2) 0 (take n kinds.now)) out.old) }
{
    let c = put_illegals(&mut out[1..], &kinds[..n], 0);
    out[0] = c as u16;
    c
}

// The lists from the places to the counts. kinds and x are the table's. Answers where the counts stand.
pub fn put_lists(lists: &mut [u16], t: &[u8], kinds: &[u8], x: Index) -> usize
    requires { (accepted t.now ≡ true) × Indexed (table_of t.now) x × Labelled (table_of t.now) kinds.now × (lists_need (table_of t.now) ≤ length lists.old) }
    ensures { (result ≡ counts_at (table_of t.now)) × Listed (table_of t.now) lists.new × (take (places_at (point_total (table_of t.now))) lists.new ≡ take (places_at (point_total (table_of t.now))) lists.old) × (length lists.new ≡ length lists.old) }
{
    let starts = x.starts;
    let counts = x.counts;
    let n = x.points;
    let at = 64 + 256 * n;
    put_place_rows(&mut lists[at..], t, kinds, &starts);
    let from = at + 258 * n;
    copy(&mut lists[from..], &starts, n + 1);
    let c = put_illegal(&mut lists[from + 17..], kinds, x.counters);
    let to = from + 18 + c;
    copy(&mut lists[to..], &counts, n);
    to
}

// The plan and all lists. kinds and x are the table's, first is scratch.
fn put_all(plan: &mut [u64], lists: &mut [u16], first: &mut [u16], t: &[u8], kinds: &[u8], x: Index)
    requires { (accepted t.now ≡ true) × Indexed (table_of t.now) x × Labelled (table_of t.now) kinds.now × (plan_need (table_of t.now) ≤ length plan.old) × (lists_need (table_of t.now) ≤ length lists.old) × (places_at (point_total (table_of t.now)) ≤ length first.old) }
    ensures { Planned (table_of t.now) plan.new lists.new × (length plan.new ≡ length plan.old) × (length lists.new ≡ length lists.old) }
{
    let counts = x.counts;
    put_first(plan, first, t);
    copy(lists, first, 64 + 256 * x.points);
    let c = put_lists(lists, t, kinds, x);
    mark_all(&mut lists[c + 16..], t, &counts, plan, first);
}

// The same with scratch of N elements. It is not inlined: each size has a frame of its own.
#[inline(never)]
fn put_in<const N: usize>(plan: &mut [u64], lists: &mut [u16], t: &[u8], kinds: &[u8], x: Index)
    requires { (accepted t.now ≡ true) × Indexed (table_of t.now) x × Labelled (table_of t.now) kinds.now × (plan_need (table_of t.now) ≤ length plan.old) × (lists_need (table_of t.now) ≤ length lists.old) × (places_at (point_total (table_of t.now)) ≤ N) × (N < 65536) }
    ensures { Planned (table_of t.now) plan.new lists.new × (length plan.new ≡ length plan.old) × (length lists.new ≡ length lists.old) }
{
    let mut first = [0u16; N];
    put_all(plan, lists, &mut first, t, kinds, x);
}

// A table of few points does not pay for the clearing of a large array.
fn put_planned(plan: &mut [u64], lists: &mut [u16], t: &[u8], kinds: &[u8], x: Index)
    requires { (accepted t.now ≡ true) × Indexed (table_of t.now) x × Labelled (table_of t.now) kinds.now × (plan_need (table_of t.now) ≤ length plan.old) × (lists_need (table_of t.now) ≤ length lists.old) }
    ensures { Planned (table_of t.now) plan.new lists.new × (length plan.new ≡ length plan.old) × (length lists.new ≡ length lists.old) }
{
    if x.points <= 4 {
        return put_in::<1088>(plan, lists, t, kinds, x);
    }
    if x.points <= 8 {
        return put_in::<2112>(plan, lists, t, kinds, x);
    }
    put_in::<4160>(plan, lists, t, kinds, x)
}

// The same, and the number of counters.
pub fn put_ready(plan: &mut [u64], lists: &mut [u16], t: &[u8], kinds: &[u8], x: Index)
    requires { (accepted t.now ≡ true) × Indexed (table_of t.now) x × Labelled (table_of t.now) kinds.now × (plan_need (table_of t.now) ≤ length plan.old) × (lists_need (table_of t.now) ≤ length lists.old) }
    ensures { Ready (table_of t.now) plan.new lists.new × (length plan.new ≡ length plan.old) × (length lists.new ≡ length lists.old) }
{
    put_planned(plan, lists, t, kinds, x);
    lists[COUNTERS_AT] = x.counters as u16;
}
