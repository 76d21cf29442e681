// The plan of the values of a table, built: of each point its rows, its excluded spans and its pieces.
ghost use Rattle.std.specs.Prelude.{◌≡◌, true, ◌<◌, ◌≤◌, ◌+◌, ◌*◌, length, take};
ghost use Rattle.model.specs.Format.{accepted, table_of};
ghost use Rattle.model.specs.Raw.{record_count};
ghost use Rattle.model.specs.Register.{point_total};
ghost use Rattle.arrays.specs.Put.{put};
ghost use Rattle.spans.specs.Point.{SpansOf, ranges_listed, excluded_listed};
ghost use Rattle.spans.specs.Part.{OwnPart, OwnBins, OwnParts};
ghost use Rattle.parts.specs.Words.{plan_rows_at};
ghost use Rattle.parts.specs.Point.{RowsOf};
ghost use Rattle.meets.specs.Plan.{PointPlan, ValuesPlan, point_need, plan_need};

use crate::cuts::put_pieces;
use layout::bin_sections;
use meets::plan::limits_of;
use parts::points::{Built, put_rows};
use spans::collects::{Bins, spans_of};
use spans::part::{Parts, part_of};
use words::bytes::read2;

// The excluded spans of point p, whose value bins are among those of `own`, from the start of out. Answers how many.
fn put_excluded(out: &mut [u64], room: &mut [u64], t: &[u8], own: Bins, p: usize) -> usize
    requires t_value { (accepted t.now ≡ true) × (p < point_total (table_of t.now)) × (ranges_listed (table_of t.now) p ≤ length room.old) × (length room.old ≤ length out.old) }
    requires own_part { OwnPart t.now p own.bins own.ranges own.count × (own.bins < 1000000000) × (own.ranges < 1000000000) × (own.count ≤ 512) }
    ensures { SpansOf (table_of t.now) p (take result out.new) × (result ≤ excluded_listed (table_of t.now) p) × (result ≤ length out.old) }
{
    let q = limits_of(t, p);
    spans_of(out, room, t, own, p as u8, q.low)
}

// Words from at on.
fn put_words(out: &mut [u64], at: usize, words: &[u64]) -> usize
    requires { at + length words.now ≤ length out.old }
    ensures { (result ≡ at + length words.now) × (out.new ≡ put at words.now out.old) }
{
    let n = words.len();
    // No copy_from_slice, of which LLVM makes a call of memmove: the library asks for memcpy and memset only.
    for i in 0..n {
        out[at + i] = words[i];
    }
    at + n
}

// Where a point's spans and its pieces begin, and where its plan ends.
#[derive(Clone, Copy)]
pub struct Ends {
    pub spans: usize,
    pub pieces: usize,
    pub end: usize,
}

// A point, and where its plan begins.
#[derive(Clone, Copy)]
pub struct Next {
    pub point: usize,
    pub at: usize,
}

// The plan of a point whose rows are written, by its excluded spans.
fn put_by_rows(plan: &mut [u64], b: Built, spans: &[u64], t: &[u8], next: Next) -> Ends
    requires t_value { (accepted t.now ≡ true) × (next.point < point_total (table_of t.now)) × RowsOf (table_of t.now) next.point (plan_rows_at plan.old next.at b.rows) b.parts × (b.rows ≤ 1025) × (b.parts ≤ 256) }
    requires spans_of { SpansOf (table_of t.now) next.point spans.now × (length spans.now ≤ excluded_listed (table_of t.now) next.point) × (next.at + point_need (table_of t.now) next.point ≤ length plan.old) }
    ensures { PointPlan (table_of t.now) next.point plan.new next.at result.spans result.pieces result.end × (take next.at plan.new ≡ take next.at plan.old) × (result.end ≤ next.at + point_need (table_of t.now) next.point) }
{
    let q = limits_of(t, next.point);
    let mid = next.at + 7 * b.rows;
    let pieces = put_words(plan, mid, spans);
    let end = put_pieces(plan, pieces, next.at, b.rows, spans, q.low);
    Ends {
        spans: mid,
        pieces,
        end,
    }
}

// The plan of a point. The other arrays are room for its spans.
fn put_point(
    plan: &mut [u64],
    room: &mut [u64],
    sorted: &mut [u64],
    t: &[u8],
    own: Bins,
    next: Next,
) -> Ends
    requires t_value { (accepted t.now ≡ true) × (next.point < point_total (table_of t.now)) × (next.at + point_need (table_of t.now) next.point ≤ length plan.old) × OwnBins t.now next.point own }
    requires point_in_bounds { (ranges_listed (table_of t.now) next.point ≤ length room.old) × (length room.old ≤ length sorted.old) }
    ensures { PointPlan (table_of t.now) next.point plan.new next.at result.spans result.pieces result.end × (take next.at plan.new ≡ take next.at plan.old) × (result.end ≤ next.at + point_need (table_of t.now) next.point) }
{
    let p = next.point;
    let b = put_rows(plan, next.at, room, sorted, t, own, p);
    let k = put_excluded(sorted, room, t, own, p);
    put_by_rows(plan, b, &sorted[..k], t, next)
}

// The plan of all points, whose value bins are those of `parts`. The other arrays are room for a point's spans.
fn put_all(
    plan: &mut [u64],
    bounds: &mut [u16],
    room: &mut [u64],
    sorted: &mut [u64],
    t: &[u8],
    parts: Parts,
)
    requires t_value { (accepted t.now ≡ true) × (plan_need (table_of t.now) ≤ length plan.old) × (49 ≤ length bounds.old) × OwnParts t.now parts }
    requires t_in_bounds { (record_count t.now 2 ≤ length room.old) × (length room.old ≤ length sorted.old) }
    ensures { ValuesPlan (table_of t.now) plan.new bounds.new × (length plan.new ≡ length plan.old) × (length bounds.new ≡ length bounds.old) }
{
    let n = read2(t, 0) as usize;
    bounds[0] = 0;
    let mut at = 0;
    for p in 0..n {
        let own = part_of(parts, p);
        let next = Next { point: p, at };
        let r = put_point(plan, room, sorted, t, own, next);
        bounds[3 * p + 1] = r.spans as u16;
        bounds[3 * p + 2] = r.pieces as u16;
        bounds[3 * p + 3] = r.end as u16;
        at = r.end;
    }
}

// The same for a table of at most N ranges. Its arrays stay out of its caller's frame (the bound on the stack).
#[inline(never)]
fn put_in<const N: usize>(plan: &mut [u64], bounds: &mut [u16], t: &[u8], parts: Parts)
    requires { (accepted t.now ≡ true) × (plan_need (table_of t.now) ≤ length plan.old) × (49 ≤ length bounds.old) × (record_count t.now 2 ≤ N) × OwnParts t.now parts × (N ≤ 1024) }
    ensures { ValuesPlan (table_of t.now) plan.new bounds.new × (length plan.new ≡ length plan.old) × (length bounds.new ≡ length bounds.old) }
{
    let mut room = [0u64; N];
    let mut sorted = [0u64; N];
    put_all(plan, bounds, &mut room, &mut sorted, t, parts);
}

// The same for a table of n ranges, in the smallest room that is enough.
fn put_sized(plan: &mut [u64], bounds: &mut [u16], t: &[u8], n: usize, parts: Parts)
    requires { (accepted t.now ≡ true) × (plan_need (table_of t.now) ≤ length plan.old) × (49 ≤ length bounds.old) × (n ≡ record_count t.now 2) × OwnParts t.now parts }
    ensures { ValuesPlan (table_of t.now) plan.new bounds.new × (length plan.new ≡ length plan.old) × (length bounds.new ≡ length bounds.old) }
{
    if n <= 64 {
        put_in::<64>(plan, bounds, t, parts);
    } else if n <= 256 {
        put_in::<256>(plan, bounds, t, parts);
    } else {
        put_in::<1024>(plan, bounds, t, parts);
    }
}

// The plan of all points, whose value bins are those of `parts`: the rows of point p from bound 3 p on, its spans from bound 3 p + 1 on, its pieces from bound 3 p + 2 to bound 3 p + 3.
pub fn put_plan(plan: &mut [u64], bounds: &mut [u16], t: &[u8], parts: Parts)
    requires { (accepted t.now ≡ true) × (plan_need (table_of t.now) ≤ length plan.old) × (49 ≤ length bounds.old) × OwnParts t.now parts }
    ensures { ValuesPlan (table_of t.now) plan.new bounds.new × (length plan.new ≡ length plan.old) × (length bounds.new ≡ length bounds.old) }
{
    let l = bin_sections(t);
    put_sized(plan, bounds, t, l.range_count, parts);
}
