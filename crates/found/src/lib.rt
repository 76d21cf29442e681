// Which cover bins of a point a sample hits, from the point's rows and excluded spans. A part is a cover bin after expansion, or an auto bin.
#![tactic(auto)]

ghost use Rattle.std.specs.Prelude.{◌≡◌, ◌∷◌, ◌+◌, ◌/◌, ◌≤◌, ◌<◌, length};
ghost use Rattle.model.specs.Format.{table_of};
ghost use Rattle.model.proofs.Readers.{All};
ghost use Rattle.arrays.specs.Put.{put};
ghost use Rattle.arrays.specs.Flat.{covers};
ghost use Rattle.spans.specs.Point.{SpansOf};
ghost use Rattle.parts.specs.Rows.{place_in, part_in};
ghost use Rattle.parts.specs.Words.{range_at, RowFits, plan_row_at, plan_rows_at};
ghost use Rattle.parts.specs.Point.{RowsOf};
ghost use Rattle.places.specs.Places.{hit_parts};
ghost use Rattle.found.specs.Found.{Reads, OriginsAt, guard_at, new_part, next_part, new_parts};

use arrays::element;
use arrays::reading::Reading;
use ranges::member::holds;
use ranges::next::capped;
use spans::lookup::inside;
use values::fields::guard_true;
use words::bytes::byte;

pub mod all;

// Where the value stands in the row's range.
fn place(rows: &[u64], at: usize, v: u64) -> u64
    requires { at + 7 ≤ length rows.now }
    ensures { (result ≡ place_in (range_at rows.now at) v) × (result ≤ v) }
{
    let kind = rows[at];
    if kind != 0 {
        return 0;
    }
    v.saturating_sub(rows[at + 1])
}

// The part of a value that the row holds.
fn part(rows: &[u64], at: usize, v: u64) -> u64
    requires { (at + 7 ≤ length rows.now) × (v < 8589934592) × RowFits 256 (plan_row_at rows.now at) }
    ensures { (result ≡ part_in (plan_row_at rows.now at) v) × (result < 256) }
{
    let d = place(rows, at, v);
    let before = rows[at + 3];
    let first = rows[at + 4];
    let last = rows[at + 5];
    let share = rows[at + 6];
    first + capped(before + d, share, last)
}

// The guard of the value bin holds that part k comes of; the value bins stand from bins on.
// 65,535, for an auto bin, is no Option: origins are 16-bit elements of one array (fixed memory).
fn guard_holds(origins: &[u16], t: &[u8], sample: &[u32], bins: usize, k: usize) -> bool
    requires { bins < 1000000000 }
    ensures { result ≡ guard_at t.now sample.now origins.now bins k }
{
    let b = element(origins, k);
    if b == 65535 {
        return true;
    }
    let g = byte(t, bins + 8 * (b as usize) + 5);
    guard_true(sample, g)
}

// A known value, where the value bins stand, and where a row stands.
#[derive(Clone, Copy)]
struct Known {
    value: u64,
    bins: usize,
    row: usize,
}

// Where the next part is written, and the least one that it may be.
#[derive(Clone, Copy)]
struct Cursor {
    at: usize,
    next: usize,
}

// The part of a row that holds the value, if it is a new one and its guard holds.
fn put_part(
    found: &mut [u16],
    rows: &[u64],
    origins: &[u16],
    t: &[u8],
    sample: &[u32],
    v: Known,
    c: Cursor,
) -> Cursor
    requires row_in_bounds { (v.row + 7 ≤ length rows.now) × (v.value < 8589934592) × (v.bins < 1000000000) × RowFits 256 (plan_row_at rows.now v.row) }
    requires row_in_bounds_2 { c.at + length (new_part (guard_at t.now sample.now origins.now v.bins) c.next v.value (plan_row_at rows.now v.row)) ≤ length found.old }
    ensures at_value { (result.at ≡ c.at + length (new_part (guard_at t.now sample.now origins.now v.bins) c.next v.value (plan_row_at rows.now v.row))) × (result.next ≡ next_part (guard_at t.now sample.now origins.now v.bins) c.next v.value (plan_row_at rows.now v.row)) }
    ensures found_after { found.new ≡ put c.at (new_part (guard_at t.now sample.now origins.now v.bins) c.next v.value (plan_row_at rows.now v.row)) found.old }
{
    let at = c.at;
    let row = v.row;
    if !holds(rows[row], rows[row + 1], rows[row + 2], v.value) {
        return c;
    }
    let k = part(rows, v.row, v.value) as usize;
    if k < c.next {
        return c;
    }
    if !guard_holds(origins, t, sample, v.bins, k) {
        return c;
    }
    found[at] = k as u16;
    Cursor {
        at: at + 1,
        next: k + 1,
    }
}

// The parts that a known value falls into and whose guards hold, from 1 on. Answers how many they are.
fn put_parts(
    found: &mut [u16],
    rows: &[u64],
    origins: &[u16],
    t: &[u8],
    sample: &[u32],
    value: u64,
    bins: usize,
) -> usize
    requires value_bound { (value < 8589934592) × (bins < 1000000000) × All (RowFits 256) (plan_rows_at rows.now 0 (length rows.now / 7)) }
    requires rows_in_bounds { 1 + length (new_parts (guard_at t.now sample.now origins.now bins) 0 value (plan_rows_at rows.now 0 (length rows.now / 7))) ≤ length found.old }
    ensures { (result ≡ length (new_parts (guard_at t.now sample.now origins.now bins) 0 value (plan_rows_at rows.now 0 (length rows.now / 7)))) × (found.new ≡ put 1 (new_parts (guard_at t.now sample.now origins.now bins) 0 value (plan_rows_at rows.now 0 (length rows.now / 7))) found.old) }
{
    let n = rows.len() / 7;
    let mut c = Cursor { at: 1, next: 0 };
    for i in 0..n {
        let v = Known {
            value,
            bins,
            row: 7 * i,
        };
        c = put_part(found, rows, origins, t, sample, v, c);
    }
    c.at - 1
}

// The reading of a point; the lowest value of the point's type, and where the value bins stand.
#[derive(Clone, Copy)]
pub struct PointReading {
    pub point: usize,
    pub reading: Reading,
    pub low: u64,
    pub bins: usize,
}

// The parts that the sample hits, from 1 on. Answers how many they are.
fn put_hit(
    found: &mut [u16],
    rows: &[u64],
    spans: &[u64],
    origins: &[u16],
    t: &[u8],
    sample: &[u32],
    r: PointReading,
) -> usize
    requires reading { Reads t.now sample.now r }
    requires room { 257 ≤ length found.old }
    requires rows_of { RowsOf (table_of t.now) r.point (plan_rows_at rows.now 0 (length rows.now / 7)) (length (covers (table_of t.now) r.point)) × SpansOf (table_of t.now) r.point spans.now × OriginsAt (table_of t.now) r.point origins.now }
    ensures { (result ≡ length (hit_parts (table_of t.now) sample.now r.point)) × (result ≤ 256) × (found.new ≡ put 1 (hit_parts (table_of t.now) sample.now r.point) found.old) }
{
    let Reading::Known(v) = r.reading else {
        return 0;
    };
    if inside(spans, v - r.low) {
        return 0;
    }
    put_parts(found, rows, origins, t, sample, v, r.bins)
}

// How many of a point's cover bins the sample hits, and then which, ascending.
pub fn put_found(
    found: &mut [u16],
    rows: &[u64],
    spans: &[u64],
    origins: &[u16],
    t: &[u8],
    sample: &[u32],
    r: PointReading,
)
    requires reading { Reads t.now sample.now r }
    requires room { 257 ≤ length found.old }
    requires rows_of { RowsOf (table_of t.now) r.point (plan_rows_at rows.now 0 (length rows.now / 7)) (length (covers (table_of t.now) r.point)) × SpansOf (table_of t.now) r.point spans.now × OriginsAt (table_of t.now) r.point origins.now }
    ensures { found.new ≡ put 0 (length (hit_parts (table_of t.now) sample.now r.point) ∷ hit_parts (table_of t.now) sample.now r.point) found.old }
{
    let n = put_hit(found, rows, spans, origins, t, sample, r);
    found[0] = n as u16;
}
