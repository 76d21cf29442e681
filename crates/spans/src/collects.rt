// The spans of a point's ignore and illegal bins, from the bytes of the table. Numbers are offsets from `low`, the lowest value of the point's type.
ghost use Rattle.std.specs.Prelude.{◌≡◌, true, ◌+◌, ◌≤◌, length, take};
ghost use Rattle.model.specs.Lists.{all};
ghost use Rattle.model.specs.Format.{range_record};
ghost use Rattle.model.specs.Raw.{ranges_at};
ghost use Rattle.arrays.specs.Put.{put};
ghost use Rattle.ranges.specs.Taken.{excluded_at};
ghost use Rattle.spans.specs.Spans.{Settled};
ghost use Rattle.spans.specs.Collected.{fits_from, word_from, words_from, taken_at, Collectable};

use crate::joins::settle;
use crate::pairs::span_word;
use ranges::taken::takes;
use ranges::value_at;
use words::bytes::{read2, read8};

// Where the value bins begin, where their ranges do, and how many bins there are.
#[derive(Clone, Copy)]
pub struct Bins {
    pub bins: usize,
    pub ranges: usize,
    pub count: usize,
}

// The range at at, a span, as a word.
fn range_word(t: &[u8], at: usize, low: u64) -> u64
    requires { (at ≤ 4000000000) × (fits_from low (range_record t.now at) ≡ true) }
    ensures { result ≡ word_from low (range_record t.now at) }
{
    let lo = value_at(read8(t, at + 1));
    let hi = value_at(read8(t, at + 9));
    span_word(lo - low, hi - low)
}

// n ranges from start on.
pub fn put_ranges(out: &mut [u64], at: usize, t: &[u8], start: usize, n: usize, low: u64) -> usize
    requires { (start ≤ 2000000000) × (n ≤ 65535) × (at + n ≤ length out.old) × (all (fits_from low) (ranges_at t.now start n) ≡ true) }
    ensures { (result ≡ at + n) × (out.new ≡ put at (words_from low (ranges_at t.now start n)) out.old) }
{
    for i in 0..n {
        out[at + i] = range_word(t, start + 17 * i, low);
    }
    at + n
}

// The ranges of the value bin at b, which are from r on, if it is an ignore or illegal bin of point p.
fn put_bin(out: &mut [u64], at: usize, t: &[u8], b: usize, r: usize, p: u8, low: u64) -> usize
    requires { (b ≤ 2000000000) × (r ≤ 2000000000) × (at + length (taken_at t.now b r p) ≤ length out.old) × (all (fits_from low) (taken_at t.now b r p) ≡ true) }
    ensures { (result ≡ at + length (taken_at t.now b r p)) × (out.new ≡ put at (words_from low (taken_at t.now b r p)) out.old) }
{
    let n = read2(t, b + 6);
    if takes(t, b, p) {
        put_ranges(out, at, t, r, n as usize, low)
    } else {
        at
    }
}

// All of them, from the start of `out`. Answers how many.
pub fn collect(out: &mut [u64], t: &[u8], place: Bins, p: u8, low: u64) -> usize
    requires { Collectable t.now place.bins place.ranges place.count p low (length out.old) }
    ensures { (result ≡ length (excluded_at t.now place.bins place.ranges place.count p)) × (out.new ≡ put 0 (words_from low (excluded_at t.now place.bins place.ranges place.count p)) out.old) }
{
    let mut at = 0;
    let mut r = place.ranges;
    for i in 0..place.count {
        let b = place.bins + 8 * i;
        let owned = read2(t, b + 6);
        at = put_bin(out, at, t, b, r, p, low);
        r += 17 * owned as usize;
    }
    at
}

// The excluded values of point p as spans, ascending, disjoint and not adjacent, from the start of `out`. Answers how many.
pub fn spans_of(out: &mut [u64], room: &mut [u64], t: &[u8], place: Bins, p: u8, low: u64) -> usize
    requires { (length room.old ≤ length out.old) × Collectable t.now place.bins place.ranges place.count p low (length room.old) }
    ensures { (result ≤ length (excluded_at t.now place.bins place.ranges place.count p)) × Settled (words_from low (excluded_at t.now place.bins place.ranges place.count p)) (take result out.new) }
{
    let n = collect(room, t, place, p, low);
    settle(&mut room[..n], out)
}
