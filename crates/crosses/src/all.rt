// The flags of all crosses.
ghost use Rattle.std.specs.Prelude.{◌≡◌, true, false, ◌≤◌, ◌+◌, length, take};
ghost use Rattle.model.specs.Counters.{has_value};
ghost use Rattle.model.specs.Sampling.{Stretches, cover_hit};
ghost use Rattle.model.specs.Register.{point_total};
ghost use Rattle.model.specs.Format.{accepted, table_of};
ghost use Rattle.arrays.specs.Put.{put};
ghost use Rattle.arrays.specs.Flat.{Tells, cover_counts, all_cross_counters, hit_flags, total_flags};
ghost use Rattle.crosses.specs.Marked.{mark_total, Marked};

use crate::bins::{Ask, Rows, put_cross};
use crate::order::{first_place, next_place};
use layout::layout_of;
use products::hits::put_hits;
use products::places::shape_of;

// The flags of a sample, or those of the total. The gate tells which cover bins are hit, or hold a value; `marks` are those of all crosses.
pub fn put_crosses(
    flags: &mut [u8],
    t: &[u8],
    sample: &[u32],
    counts: &[u16],
    gate: &[u8],
    marks: &[u16],
    ask: Ask,
) -> usize
    requires t_value { (accepted t.now ≡ true) × (take (point_total (table_of t.now)) counts.now ≡ cover_counts (table_of t.now)) × Marked (table_of t.now) marks.now }
    requires t_in_bounds { (mark_total (table_of t.now) ≤ length marks.now) × (ask.at + length (all_cross_counters (table_of t.now)) ≤ length flags.old) }
    ensures value { result ≡ ask.at + length (all_cross_counters (table_of t.now)) }
    ensures raised { ask.total ≡ false → Tells (cover_hit (table_of t.now) sample.now) (table_of t.now) gate.now → (m : Stretches) → flags.new ≡ put ask.at (hit_flags (table_of t.now) sample.now m (all_cross_counters (table_of t.now))) flags.old }
    ensures counted { ask.total ≡ true → Tells (has_value (table_of t.now)) (table_of t.now) gate.now → flags.new ≡ put ask.at (total_flags (table_of t.now) (all_cross_counters (table_of t.now))) flags.old }
{
    let mut hits = [0u8; 2048];
    let l = layout_of(t);
    let n = l.cross_count;
    let total = ask.total;
    let mut at = ask.at;
    let mut base = 0;
    let mut p = first_place(l);
    for c in 0..n {
        let s = shape_of(t, counts, p);
        put_hits(&mut hits, t, gate, p, s);
        let now = Ask { at, total };
        let x = Rows {
            cross: p.cross,
            bins: p.bins,
            products: s.total,
        };
        at = put_cross(flags, t, sample, &hits, &marks[base..], now, x);
        base += s.total;
        p = next_place(t, p);
    }
    at
}
