// Flat arrays over all counters of an accepted table, in the register's order: what each counter is, what is in the total, whose item it is.
#![tactic(auto)]

pub mod planned;

ghost use Rattle.std.specs.Prelude.{◌≡◌, true, ◌*◌, ◌<◌, ◌≤◌, length};
ghost use Rattle.model.specs.Format.{accepted, table_of};
ghost use Rattle.model.specs.Counters.{counters};
ghost use Rattle.model.specs.Register.{point_total};
ghost use Rattle.arrays.specs.Put.{put};
ghost use Rattle.arrays.specs.Flat.{total_flags, kinds_of, items_of};
ghost use Rattle.crosses.specs.Marked.{mark_total};
ghost use Rattle.sampling.specs.Index.{Roomy, Indexed, Labelled};

use crate::planned::put_planned;
use crosses::all::put_crosses;
use crosses::bins::Ask;
use crosses::labels::{put_cross_items, put_cross_kinds};
use layout::point_count;
use points::counts::put_counts;
use points::items::put_point_items;
use points::kinds::put_point_kinds;
use points::spread::scatter;

// Where each point's counters begin, how many cover bins it has, and how many points and counters there are.
#[derive(Clone, Copy)]
pub struct Index {
    pub starts: [u16; 17],
    pub counts: [u16; 16],
    pub points: usize,
    pub counters: usize,
}

// What each counter is, and the index.
pub fn put_kinds(kinds: &mut [u8], t: &[u8]) -> Index
    requires { (accepted t.now ≡ true) × Roomy (table_of t.now) (length kinds.old) }
    ensures { Indexed (table_of t.now) result × (kinds.new ≡ put 0 (kinds_of (counters (table_of t.now))) kinds.old) }
{
    let mut starts = [0u16; 17];
    let mut counts = [0u16; 16];
    let n = put_point_kinds(kinds, &mut starts, t);
    put_counts(&mut counts, t, kinds, &starts);
    let m = put_cross_kinds(kinds, n, t, &counts);
    Index {
        starts,
        counts,
        points: point_count(t),
        counters: m,
    }
}

// ---- which counters count in their item's total

fn totals_in(flags: &mut [u8], t: &[u8], kinds: &[u8], has: &mut [u8], marks: &mut [u16], x: Index)
    requires { (accepted t.now ≡ true) × Roomy (table_of t.now) (length flags.old) × Indexed (table_of t.now) x × Labelled (table_of t.now) kinds.now × (256 * point_total (table_of t.now) ≤ length has.old) × (mark_total (table_of t.now) ≤ length marks.old) }
    ensures { flags.new ≡ put 0 (total_flags (table_of t.now) (counters (table_of t.now))) flags.old }
{
    let starts = x.starts;
    let counts = x.counts;
    put_planned(has, marks, t, x);
    let n = scatter(flags, t, kinds, has, &starts);
    let ask = Ask { at: n, total: true };
    let none = [0u32; 1];
    put_crosses(flags, t, &none, &counts, has, marks, ask);
}

// The same with scratch of so many elements. It is not inlined: each size has a frame of its own.
#[inline(never)]
fn totals_with<const HAS: usize, const MARKS: usize>(
    flags: &mut [u8],
    t: &[u8],
    kinds: &[u8],
    x: Index,
)
    requires { (accepted t.now ≡ true) × Roomy (table_of t.now) (length flags.old) × Indexed (table_of t.now) x × Labelled (table_of t.now) kinds.now × (256 * point_total (table_of t.now) ≤ HAS) × (mark_total (table_of t.now) ≤ MARKS) × (HAS < 65536) × (MARKS < 65536) }
    ensures { flags.new ≡ put 0 (total_flags (table_of t.now) (counters (table_of t.now))) flags.old }
{
    let mut has = [0u8; HAS];
    let mut marks = [0u16; MARKS];
    totals_in(flags, t, kinds, &mut has, &mut marks, x);
}

// kinds and x are the table's. A small table does not pay for the clearing of large arrays.
pub fn put_totals(flags: &mut [u8], t: &[u8], kinds: &[u8], x: Index)
    requires { (accepted t.now ≡ true) × Roomy (table_of t.now) (length flags.old) × Indexed (table_of t.now) x × Labelled (table_of t.now) kinds.now }
    ensures { flags.new ≡ put 0 (total_flags (table_of t.now) (counters (table_of t.now))) flags.old }
{
    if (x.counters <= 1024) & (x.points <= 4) {
        return totals_with::<1024, 1024>(flags, t, kinds, x);
    }
    if x.counters <= 4096 {
        return totals_with::<4096, 4096>(flags, t, kinds, x);
    }
    totals_with::<4096, 8192>(flags, t, kinds, x)
}

// The item that each counter belongs to. x is the table's.
pub fn put_items(items: &mut [u8], t: &[u8], x: Index)
    requires { (accepted t.now ≡ true) × Roomy (table_of t.now) (length items.old) × Indexed (table_of t.now) x }
    ensures { items.new ≡ put 0 (items_of (table_of t.now) (counters (table_of t.now))) items.old }
{
    let starts = x.starts;
    let counts = x.counts;
    let n = put_point_items(items, t, &starts);
    put_cross_items(items, n, t, &counts);
}
