// Which products of a cross are hit: those of which each part's gate is 1.
ghost use Rattle.std.specs.Prelude.{◌≡◌, Bool, ◌+◌, ◌*◌, ◌<◌, ◌≤◌, length, take};
ghost use Rattle.model.specs.Counters.{CoverBin};
ghost use Rattle.model.specs.Format.{byte as byte_at, table_of};
ghost use Rattle.arrays.specs.Flat.{Tells, product_hits};
ghost use Rattle.products.specs.Shapes.{sizes_of, Whole, Fits, Stands};
ghost use Rattle.operators.specs.Operators.{Says};
ghost use Rattle.products.specs.Bytes.{open_of};

use crate::places::Place;
use crate::shapes::Shape;
use crate::spread::spread_part;
use arrays::put_same;
use operators::and_into;
use words::bytes::byte;

// One position q: the gates of its point, for each product. The cross's points stand from `at` on.
fn and_gate(stack: &mut [u8], t: &[u8], gate: &[u8], at: usize, q: usize, s: Shape)
    requires { (at < 1000000000) × (q < 4) × Whole s × (2 * s.total ≤ length stack.old) }
    ensures { Says s.total (open_of stack.old gate.now (256 * byte_at t.now (at + q)) (sizes_of s) q) stack.new }
{
    let n = s.total;
    let p = byte(t, at + q) as usize;
    spread_part(&mut stack[n..], gate, 256 * p, q, s);
    and_into(stack, n);
}

// All products, from the stack's start on.
pub fn put_hits(stack: &mut [u8], t: &[u8], gate: &[u8], p: Place, s: Shape)
    requires { Stands t.now p × Fits (table_of t.now) p.number s × (2 * s.total ≤ length stack.old) }
    ensures { (f : CoverBin → Bool) → Tells f (table_of t.now) gate.now → take s.total stack.new ≡ product_hits (table_of t.now) p.number f }
{
    let n = s.total;
    let count = s.count;
    let at = p.cross + 1;
    put_same(stack, 0, n, 1);
    for q in 0..count {
        and_gate(stack, t, gate, at, q, s);
    }
}
