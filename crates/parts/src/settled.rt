// Form 1, one bin per value: the listed spans in order, joined where they touch or overlap, and their rows.
ghost use Rattle.std.specs.Prelude.{◌≡◌, true, map, ◌<◌, ◌≤◌, ◌+◌, ◌*◌, ◌^◌, length, take};
ghost use Rattle.model.specs.Lists.{all, sum_of};
ghost use Rattle.model.specs.Raw.{ranges_at};
ghost use Rattle.arrays.specs.Put.{put};
ghost use Rattle.spans.specs.Spans.{sound};
ghost use Rattle.spans.specs.Collected.{fits_from};
ghost use Rattle.parts.specs.Rows.{settled_words, span_from, span_size};
ghost use Rattle.parts.specs.Words.{row_words, bin_words};

use crate::rows::{Deal, Range, put_row};
use spans::collects::put_ranges;
use spans::joins::settle;
use spans::pairs::{high_end, low_end};

// n spans from r on, from the start of `sorted`: in order, and joined. Answers how many they are then.
pub fn settle_spans(
    room: &mut [u64],
    sorted: &mut [u64],
    t: &[u8],
    r: usize,
    n: usize,
    low: u64,
) -> usize
    requires { (r ≤ 2000000000) × (n ≤ 1024) × (n ≤ length room.old) × (length room.old ≤ length sorted.old) × (all (fits_from low) (ranges_at t.now r n) ≡ true) }
    ensures { (result ≤ n) × (take result sorted.new ≡ settled_words low (ranges_at t.now r n)) }
{
    let m = put_ranges(room, 0, t, r, n, low);
    settle(&mut room[..m], sorted)
}

// How many values a span has.
fn span_size(span: u64) -> u64
    requires { sound span ≡ true }
    ensures { result ≡ span_size span }
{
    high_end(span) + 1 - low_end(span)
}

// How many values some spans have.
pub fn sizes_of(spans: &[u64]) -> u64
    requires { (all sound spans.now ≡ true) × (sum_of span_size spans.now < 2 ^ 60) }
    ensures { result ≡ sum_of span_size spans.now }
{
    let mut sum: u64 = 0;
    for &span in spans {
        sum += span_size(span);
    }
    sum
}

// The row of a span.
fn put_span(out: &mut [u64], c: usize, span: u64, low: u64, before: u64, d: Deal)
    requires { (low ≤ 2147483648) × (c + 7 ≤ length out.old) }
    ensures { out.new ≡ put c (row_words d.first d.last d.share before (span_from low span)) out.old }
{
    let r = Range::Span {
        low: low + low_end(span),
        high: low + high_end(span),
    };
    put_row(out, c, r, before, d);
}

// The rows of some spans.
pub fn put_spans(out: &mut [u64], c: usize, spans: &[u64], low: u64, d: Deal) -> usize
    requires { (c + 7 * length spans.now ≤ length out.old) × (low ≤ 2147483648) × (all sound spans.now ≡ true) × (sum_of span_size spans.now < 2 ^ 60) }
    ensures { (result ≡ c + 7 * length spans.now) × (out.new ≡ put c (bin_words d.first d.last d.share 0 (map (span_from low) spans.now)) out.old) }
{
    let mut before: u64 = 0;
    for (i, &span) in spans.iter().enumerate() {
        put_span(out, c + 7 * i, span, low, before, d);
        before += span_size(span);
    }
    c + 7 * spans.len()
}
