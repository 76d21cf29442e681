// What is needed of a table for its samples, worked out once.
ghost use Rattle.std.specs.Prelude.{◌≡◌, true, ◌+◌, ◌≤◌, length};
ghost use Rattle.model.specs.Format.{accepted, table_of};
ghost use Rattle.meets.specs.Plan.{plan_need};
ghost use Rattle.runs.specs.Rows.{sequence_rows};
ghost use Rattle.sampling.specs.Index.{Indexed, Labelled};
ghost use Rattle.lists.specs.Lists.{lists_need};
ghost use Rattle.samples.specs.Prepared.{Prepared};

use layout::transition_section;
use lists::{BINS_AT, ROWS_AT, put_ready};
use runs::rows::put_sequences;
use sampling::Index;

// The rows of the sequences come first in the plan, then the plan of the values; the lists tell how many words the rows are, and of how many bins. kinds and x are the table's.
pub fn prepare(plan: &mut [u64], lists: &mut [u16], t: &[u8], kinds: &[u8], x: Index)
    requires { (accepted t.now ≡ true) × Indexed (table_of t.now) x × Labelled (table_of t.now) kinds.now × (length (sequence_rows (table_of t.now)) + plan_need (table_of t.now) ≤ length plan.old) × (lists_need (table_of t.now) ≤ length lists.old) }
    ensures { Prepared (table_of t.now) plan.new lists.new × (length plan.new ≡ length plan.old) × (length lists.new ≡ length lists.old) }
{
    let l = transition_section(t);
    let m = put_sequences(plan, 0, t);
    put_ready(&mut plan[m..], lists, t, kinds, x);
    lists[BINS_AT] = l.count as u16;
    lists[ROWS_AT] = m as u16;
}
