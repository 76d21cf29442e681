// The plan of the values of a table, and what it answers.
ghost use Rattle.std.specs.Prelude.{◌≡◌, true, ◌<◌, ◌≤◌, ◌+◌, ◌*◌, length, take};
ghost use Rattle.model.specs.Values.{lowest, highest, in_type};
ghost use Rattle.model.specs.Counters.{point_at, has_value};
ghost use Rattle.model.specs.Format.{accepted, table_of};
ghost use Rattle.model.specs.Register.{point_total};
ghost use Rattle.arrays.specs.Put.{put};
ghost use Rattle.arrays.specs.Flat.{covers, Tells, cover_counts};
ghost use Rattle.meets.specs.Pieces.{met_bits, has_bits};
ghost use Rattle.meets.specs.Plan.{ValuesPlan};

use crate::ask::Ask;
use crate::met::put_met;
use arrays::element;
use values::points::lowest_at;
use words::bytes::{byte, read2};

// An accepted table, the plan of its values, and its lists: first the bounds of the plan, from element 64 on the origins.
#[derive(Clone, Copy)]
pub struct Plan<'a> {
    pub table: &'a [u8],
    pub words: &'a [u64],
    pub lists: &'a [u16],
}

// The lowest and the highest value of a point's type.
#[derive(Clone, Copy)]
pub struct Limits {
    pub low: u64,
    pub high: u64,
}

pub fn limits_of(t: &[u8], p: usize) -> Limits
    requires { (accepted t.now ≡ true) × (p < point_total (table_of t.now)) }
    ensures { (result.low ≡ lowest (point_at (table_of t.now) p)) × (result.high ≡ highest (point_at (table_of t.now) p)) × (result.low ≤ result.high) × (result.high < 8589934592) }
{
    let point = 2 + 11 * p;
    let low = lowest_at(t, point);
    let all = ranges::power(byte(t, point));
    Limits {
        low,
        high: low + all - 1,
    }
}

// Two values of the type of a point, and how many parts the point has.
#[derive(Clone, Copy)]
pub struct Question {
    pub point: usize,
    pub parts: usize,
    pub lo: u64,
    pub hi: u64,
}

// For each part of the point: whether it still holds a value from lo to hi.
pub fn put_meets(out: &mut [u8], at: usize, plan: Plan, q: Question)
    requires t_value { (accepted plan.table.now ≡ true) × (q.point < point_total (table_of plan.table.now)) × ValuesPlan (table_of plan.table.now) plan.words.now plan.lists.now }
    requires parts_value { (q.parts ≡ length (covers (table_of plan.table.now) q.point)) × (at + q.parts ≤ length out.old) × (in_type (point_at (table_of plan.table.now) q.point) q.lo ≡ true) × (in_type (point_at (table_of plan.table.now) q.point) q.hi ≡ true) }
    ensures { out.new ≡ put at (met_bits (table_of plan.entry.table.now) q.point q.lo q.hi) out.old }
{
    let p = q.point;
    let from = element(plan.lists, 3 * p + 1) as usize;
    let mid = element(plan.lists, 3 * p + 2) as usize;
    let to = element(plan.lists, 3 * p + 3) as usize;
    let l = limits_of(plan.table, p);
    let ask = Ask {
        low: l.low,
        lo: q.lo,
        hi: q.hi,
        parts: q.parts,
    };
    put_met(out, at, &plan.words[mid..to], &plan.words[from..mid], ask);
}

// For each part of point p: whether it still holds a value.
fn put_has_at(out: &mut [u8], plan: Plan, p: usize, parts: usize)
    requires t_value { (accepted plan.table.now ≡ true) × (p < point_total (table_of plan.table.now)) × ValuesPlan (table_of plan.table.now) plan.words.now plan.lists.now }
    requires parts_value { (parts ≡ length (covers (table_of plan.table.now) p)) × (256 * point_total (table_of plan.table.now) ≤ length out.old) }
    ensures { out.new ≡ put (256 * p) (has_bits (table_of plan.entry.table.now) p) out.old }
{
    let l = limits_of(plan.table, p);
    let q = Question {
        point: p,
        parts,
        lo: l.low,
        hi: l.high,
    };
    put_meets(out, 256 * p, plan, q);
}

// Whether each cover bin still holds a value. counts has the number of cover bins of each point.
pub fn put_has(out: &mut [u8], t: &[u8], plan: &[u64], bounds: &[u16], counts: &[u16])
    requires { (accepted t.now ≡ true) × ValuesPlan (table_of t.now) plan.now bounds.now × (take (point_total (table_of t.now)) counts.now ≡ cover_counts (table_of t.now)) × (256 * point_total (table_of t.now) ≤ length out.old) }
    ensures { Tells (has_value (table_of t.now)) (table_of t.now) out.new × (length out.new ≡ length out.old) }
{
    let plan = Plan {
        table: t,
        words: plan,
        lists: bounds,
    };
    let n = read2(t, 0) as usize;
    for p in 0..n {
        let parts = element(counts, p) as usize;
        put_has_at(out, plan, p, parts);
    }
}
