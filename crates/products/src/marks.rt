// The marks of a cross's products: bit i says that the cross's i-th bin selects the product.
ghost use Rattle.std.specs.Prelude.{◌≡◌, ◌*◌, ◌≤◌, length, take};
ghost use Rattle.model.specs.Format.{table_of};
ghost use Rattle.products.specs.Shapes.{Stands};
ghost use Rattle.operators.specs.Operators.{Says};
ghost use Rattle.products.specs.Expressions.{room_for};
ghost use Rattle.products.specs.Marks.{Below, Planned, add_of, cross_marks, longest_bin};

use crate::expressions::eval_all;
use crate::leaves::{Tokens, put_rows};
use crate::places::{Crossed, Place};
use arrays::put_same;
use meets::plan::Plan;
use words::bytes::byte;

// The weight of one bin's bit, added to the mark of each product whose byte is 1.
fn add_bit(marks: &mut [u16], stack: &[u8], n: usize, weight: u16)
    requires { (n ≤ length marks.old) × (n ≤ length stack.now) × (2 * weight ≤ 65536) × Below n weight marks.old × Below n 2 stack.now }
    ensures { Says n (add_of marks.old stack.now weight) marks.new }
{
    for x in 0..n {
        marks[x] += weight * (stack[x] as u16);
    }
}

// All products of a cross, with a stack and leaves that have room for its longest bin.
fn mark_in(marks: &mut [u16], stack: &mut [u8], leaves: &mut [u8], plan: Plan, x: Crossed)
    requires marked { Planned plan.table.now plan.words.now plan.lists.now x × (x.shape.total ≤ length marks.old) }
    requires total_in_bounds { (room_for (longest_bin plan.table.now x.place) x.shape.total ≤ length stack.old) × (256 * longest_bin plan.table.now x.place ≤ length leaves.old) }
    ensures { take x.shape.total marks.new ≡ cross_marks (table_of plan.entry.table.now) x.place.number }
{
    let t = plan.table;
    let p = x.place;
    let s = x.shape;
    let total = s.total;
    let at = p.cross;
    let n = byte(t, at + 12) as usize;
    put_same(marks, 0, total, 0);
    let mut weight: u32 = 1;
    let mut bin = p.bins;
    let mut token = p.tokens;
    for i in 0..n {
        let m = byte(t, bin + 2) as usize;
        let k = Tokens {
            cross: at,
            at: token,
            count: m,
        };
        put_rows(leaves, plan, k, s);
        eval_all(stack, t, leaves, token, 0, m, s);
        add_bit(marks, stack, total, weight as u16);
        weight = 2 * weight;
        bin += 3;
        token += 20 * m;
    }
}

// ---- size classes

// The token count of the cross's longest bin.
fn longest_bin(t: &[u8], p: Place) -> usize
    requires { Stands t.now p }
    ensures { result ≡ longest_bin t.now p }
{
    let n = byte(t, p.cross + 12) as usize;
    let mut most: usize = 0;
    let mut bin = p.bins;
    for i in 0..n {
        most = most.max(byte(t, bin + 2) as usize);
        bin += 3;
    }
    most
}

// All products of a cross, with a stack and leaves of so many bytes. It is not inlined: each size has a frame of its own.
#[inline(never)]
fn marks_in<const STACK: usize, const LEAVES: usize>(marks: &mut [u16], plan: Plan, x: Crossed)
    requires marked { Planned plan.table.now plan.words.now plan.lists.now x × (x.shape.total ≤ length marks.old) }
    requires small { (STACK ≤ 17408) × (LEAVES ≤ 8192) }
    requires room { (room_for (longest_bin plan.table.now x.place) x.shape.total ≤ STACK) × (256 * longest_bin plan.table.now x.place ≤ LEAVES) }
    ensures { take x.shape.total marks.new ≡ cross_marks (table_of plan.entry.table.now) x.place.number }
{
    let mut stack = [0u8; STACK];
    let mut leaves = [0u8; LEAVES];
    mark_in(marks, &mut stack, &mut leaves, plan, x);
}

// All products of a cross. One of short bins and few products does not pay for the clearing of large arrays.
pub fn mark_products(marks: &mut [u16], plan: Plan, x: Crossed)
    requires { Planned plan.table.now plan.words.now plan.lists.now x × (x.shape.total ≤ length marks.old) }
    ensures { take x.shape.total marks.new ≡ cross_marks (table_of plan.entry.table.now) x.place.number }
{
    let m = longest_bin(plan.table, x.place);
    let s = x.shape;
    let room = (m / 2 + 1) * s.total;
    if (m <= 8) & (room <= 2048) {
        return marks_in::<2048, 2048>(marks, plan, x);
    }
    if (m <= 16) & (room <= 6144) {
        return marks_in::<6144, 4096>(marks, plan, x);
    }
    marks_in::<17408, 8192>(marks, plan, x)
}
