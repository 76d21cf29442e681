// The pieces of a point, cut from its rows.
ghost use Rattle.std.specs.Prelude.{◌≡◌, true, [], ◌∷◌, ◌<◌, ◌≤◌, ◌+◌, ◌-◌, ◌*◌, length};
ghost use Rattle.model.proofs.Readers.{All};
ghost use Rattle.arrays.specs.Put.{put};
ghost use Rattle.spans.specs.Spans.{apart};
ghost use Rattle.spans.specs.Point.{free_value};
ghost use Rattle.parts.specs.Words.{plan_row_at, plan_rows_at};
ghost use Rattle.meets.specs.Pieces.{packed};
ghost use Rattle.pieces.specs.Cuts.{left_of, cut_low, cut_high, cuts_from, row_pieces, all_pieces, piece_words, Cuttable, row_of, CutsFit};

use parts::rows::Range;
use ranges::next::capped;
use spans::lookup::free_value;

// A row: its range, the values listed before it in its bin, and its bin's first part, last part (counted from the first) and share.
#[derive(Clone, Copy)]
pub struct Row {
    pub range: Range,
    pub before: u64,
    pub first: u64,
    pub last: u64,
    pub share: u64,
}

// The row at at.
fn row_at(w: &[u64], at: usize) -> Row
    requires { at + 7 ≤ length w.now }
    ensures { row_of result ≡ plan_row_at w.now at }
{
    let a = w[at + 1];
    let b = w[at + 2];
    let range = if w[at] == 0 {
        Range::Span { low: a, high: b }
    } else {
        Range::Pattern { bits: a, mask: b }
    };
    Row {
        range,
        before: w[at + 3],
        first: w[at + 4],
        last: w[at + 5],
        share: w[at + 6],
    }
}

// The two words of a piece.
fn put_piece(out: &mut [u64], at: usize, a: u64, b: u64, k: u64) -> usize
    requires { (at + 2 ≤ length out.old) × (b < 8589934592) × (k < 131072) }
    ensures { (result ≡ at + 2) × (out.new ≡ put at (a ∷ packed b k ∷ []) out.old) }
{
    out[at] = a;
    out[at + 1] = b + 8589934592 * k;
    at + 2
}

// A span of one part.
#[derive(Clone, Copy)]
pub struct Cut {
    pub low: u64,
    pub high: u64,
    pub part: u64,
}

// What is left of it.
fn put_left(out: &mut [u64], at: usize, spans: &[u64], low: u64, c: Cut) -> usize
    requires spans_value { (apart spans.now ≡ true) × (low ≤ c.low) × (c.low ≤ 8589934592) × (c.high < 8589934592) × (c.part < 65536) }
    requires part_in_bounds { at + length (piece_words (left_of (free_value spans.now low) c.low c.high c.part)) ≤ length out.old }
    ensures { (result ≡ at + length (piece_words (left_of (free_value spans.now low) c.low c.high c.part))) × (out.new ≡ put at (piece_words (left_of (free_value spans.now low) c.low c.high c.part)) out.old) }
{
    let a = free_value(spans, low, c.low);
    if c.high < a {
        at
    } else {
        put_piece(out, at, a, c.high, c.part)
    }
}

// A span row with the parts of its first and of its last value, counted from the bin's first part.
#[derive(Clone, Copy)]
pub struct Cuts {
    pub lo: u64,
    pub hi: u64,
    pub before: u64,
    pub share: u64,
    pub first: u64,
    pub from: u64,
    pub top: u64,
}

// What the row has of part j.
fn cut_at(c: Cuts, j: u64) -> Cut
    requires { CutsFit c.lo c.hi c.before c.share c.first c.top × (j ≤ c.top) }
    ensures { (result.low ≡ cut_low c.lo c.before c.share j) × (result.high ≡ cut_high c.lo c.hi c.before c.share c.top j) × (result.part ≡ c.first + j) × (c.lo ≤ result.low) × (result.low ≤ c.hi) × (result.high ≤ c.hi) }
{
    let low = c.lo + (j * c.share).saturating_sub(c.before);
    let part = c.first + j;
    if j < c.top {
        let next = c.lo + ((j + 1) * c.share).saturating_sub(c.before);
        return Cut {
            low,
            high: next.saturating_sub(1),
            part,
        };
    }
    Cut {
        low,
        high: c.hi,
        part,
    }
}

// What is left of each of its parts.
fn put_cuts(out: &mut [u64], at: usize, spans: &[u64], low: u64, c: Cuts) -> usize
    requires spans_value { (apart spans.now ≡ true) × (low ≤ c.lo) × CutsFit c.lo c.hi c.before c.share c.first c.top }
    requires from_in_bounds { at + length (piece_words (cuts_from (free_value spans.now low) c.lo c.hi c.before c.share c.first c.top c.from (c.top + 1 - c.from))) ≤ length out.old }
    ensures { (result ≡ at + length (piece_words (cuts_from (free_value spans.now low) c.lo c.hi c.before c.share c.first c.top c.from (c.top + 1 - c.from)))) × (out.new ≡ put at (piece_words (cuts_from (free_value spans.now low) c.lo c.hi c.before c.share c.first c.top c.from (c.top + 1 - c.from))) out.old) }
{
    let mut e = at;
    for j in c.from..=c.top {
        let cut = cut_at(c, j);
        e = put_left(out, e, spans, low, cut);
    }
    e
}

// The pieces of a row.
fn put_row(out: &mut [u64], at: usize, spans: &[u64], low: u64, r: Row) -> usize
    requires spans_value { (apart spans.now ≡ true) × Cuttable low (row_of r) }
    requires share_in_bounds { at + length (piece_words (row_pieces (free_value spans.now low) (row_of r))) ≤ length out.old }
    ensures { (result ≡ at + length (piece_words (row_pieces (free_value spans.now low) (row_of r)))) × (out.new ≡ put at (piece_words (row_pieces (free_value spans.now low) (row_of r))) out.old) }
{
    let from = capped(r.before, r.share, r.last);
    match r.range {
        Range::Pattern { bits, mask } => { put_piece(out, at, bits, mask, r.first + from + 65536) }
        Range::Span { low: lo, high: hi } => {
            let top = capped(r.before + (hi - lo), r.share, r.last);
            let c = Cuts {
                lo,
                hi,
                before: r.before,
                share: r.share,
                first: r.first,
                from,
                top,
            };
            put_cuts(out, at, spans, low, c)
        }
    }
}

// The pieces of the n rows that stand from `from` on, before at. Answers where they end.
pub fn put_pieces(
    out: &mut [u64],
    at: usize,
    from: usize,
    n: usize,
    spans: &[u64],
    low: u64,
) -> usize
    requires n_bound { (n < 65536) × (from + 7 * n ≤ at) × (apart spans.now ≡ true) × All (Cuttable low) (plan_rows_at out.old from n) }
    requires n_in_bounds { at + 2 * length (all_pieces (free_value spans.now low) (plan_rows_at out.old from n)) ≤ length out.old }
    ensures { (result ≡ at + 2 * length (all_pieces (free_value spans.now low) (plan_rows_at out.old from n))) × (out.new ≡ put at (piece_words (all_pieces (free_value spans.now low) (plan_rows_at out.old from n))) out.old) }
{
    let mut e = at;
    for i in 0..n {
        let r = row_at(out, from + 7 * i);
        e = put_row(out, e, spans, low, r);
    }
    e
}
