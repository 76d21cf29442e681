// The marks of the products of all crosses.
ghost use Rattle.std.specs.Prelude.{◌≡◌, true, ◌≤◌, length, take, drop};
ghost use Rattle.model.specs.Register.{point_total};
ghost use Rattle.model.specs.Format.{accepted, table_of};
ghost use Rattle.arrays.specs.Flat.{Origins, cover_counts};
ghost use Rattle.meets.specs.Plan.{ValuesPlan};
ghost use Rattle.crosses.specs.Marked.{mark_total, Marked};

use crate::order::{first_place, next_place};
use layout::layout_of;
use meets::plan::Plan;
use products::marks::mark_products;
use products::places::{Crossed, shape_of};

// One cross after another: bit i of a mark says that the cross's i-th bin selects the product. plan and the start of `lists` are the plan of the table's values;
// the origins of the cover bins stand from element 64 on.
pub fn mark_all(marks: &mut [u16], t: &[u8], counts: &[u16], plan: &[u64], lists: &[u16])
    requires { (accepted t.now ≡ true) × (take (point_total (table_of t.now)) counts.now ≡ cover_counts (table_of t.now)) × Origins (table_of t.now) (drop 64 lists.now) × ValuesPlan (table_of t.now) plan.now lists.now × (mark_total (table_of t.now) ≤ length marks.old) }
    ensures { Marked (table_of t.now) marks.new }
{
    let plan = Plan {
        table: t,
        words: plan,
        lists,
    };
    let l = layout_of(t);
    let n = l.cross_count;
    let mut p = first_place(l);
    let mut at = 0;
    for c in 0..n {
        let s = shape_of(t, counts, p);
        let x = Crossed { place: p, shape: s };
        mark_products(&mut marks[at..], plan, x);
        at += s.total;
        p = next_place(t, p);
    }
}
