// Which parts of a point still hold a value from lo to hi, by its pieces.
ghost use Rattle.std.specs.Prelude.{◌≡◌, true, cond, ℕ, ◌<◌, ◌≤◌, ◌+◌, ◌-◌, ◌*◌, ◌/◌, length, get_or, set};
ghost use Rattle.model.specs.Table.{Table, pattern};
ghost use Rattle.model.specs.Values.{in_range};
ghost use Rattle.model.proofs.Readers.{All};
ghost use Rattle.arrays.specs.Put.{put};
ghost use Rattle.spans.specs.Spans.{apart};
ghost use Rattle.spans.specs.Point.{free_value};
ghost use Rattle.parts.specs.Rows.{raise_all};
ghost use Rattle.meets.specs.Pieces.{piece_at, pieces_at, met_bits};
ghost use Rattle.meets.specs.Met.{pattern_met, reach_end, met_parts, met_one, met_flags, next_fit, PartBelow, Asked};

use crate::ask::Ask;
use ranges::next::next_pattern;
use spans::lookup::free_value;

// The value fits the pattern.
fn fits(bits: u64, mask: u64, v: u64) -> bool
    ensures { result ≡ in_range (pattern bits mask) v }
{
    v.saturating_sub(2147483648) & mask == bits
}

// The least value from x up that fits the pattern, or a smaller number where none does.
fn next_fit(bits: u64, mask: u64, x: u64) -> u64
    requires { x ≤ 17179869184 }
    ensures { (result ≡ next_fit bits mask x) × (result ≤ x + 17179869184) }
{
    if (x < 2147483648) & (bits == 0) {
        return x;
    }
    2147483648 + next_pattern(bits, mask, x.saturating_sub(2147483648))
}

// A value from lo to hi fits the pattern and is left.
fn pattern_met(spans: &[u64], bits: u64, mask: u64, ask: Ask) -> bool
    requires { apart spans.now ≡ true }
    ensures { result ≡ pattern_met (free_value spans.now ask.low) bits mask ask.lo ask.hi }
{
    let mut v = next_fit(bits, mask, ask.lo);
    while v <= ask.hi {
        let free = free_value(spans, ask.low, v);
        if (free == v) & fits(bits, mask, v) {
            return true;
        }
        v = next_fit(bits, mask, free.max(v + 1));
    }
    false
}

// A 1 at the part of the pattern at at, if it is met.
fn meet_pattern(flags: &mut [u8], words: &[u64], at: usize, spans: &[u64], ask: Ask)
    requires at_in_bounds { (at + 2 ≤ length words.now) × (562949953421312 ≤ get_or words.now (at + 1) 0) × (apart spans.now ≡ true) }
    requires part_below { PartBelow (length flags.old) (piece_at words.now at) }
    ensures { flags.new ≡ met_one (free_value spans.now ask.low) ask.lo ask.hi (piece_at words.now at) flags.old }
{
    let bits = words[at];
    let w = words[at + 1];
    if !pattern_met(spans, bits, w % 8589934592, ask) {
        return;
    }
    let k = (w / 8589934592 % 65536) as usize;
    flags[k] = 1;
}

// The first value from lo up that is left, and below what a span begins that reaches up to it: hi + 1, or 0 where that value is above hi.
#[derive(Clone, Copy)]
pub struct Reach {
    pub from: u64,
    pub end: u64,
}

fn reach_of(spans: &[u64], ask: Ask) -> Reach
    requires { apart spans.now ≡ true }
    ensures { (result.from ≡ free_value spans.now ask.low ask.lo) × (result.end ≡ reach_end result.from ask.hi) }
{
    let from = free_value(spans, ask.low, ask.lo);
    let end = if from <= ask.hi { ask.hi + 1 } else { 0 };
    Reach { from, end }
}

// A 1 at k, if it is on.
fn mark(flags: &mut [u8], k: usize, on: bool)
    requires { k < length flags.old }
    ensures { flags.new ≡ cond on (set flags.old k 1) flags.old }
{
    if on {
        flags[k] = 1;
    }
}

// Here and below n counts pieces, of two words each: a slice of the words alone would have half its length in each contract.
// A 1 at the part of each span that is met, from piece i to the first pattern. Answers which piece that is, or n.
fn meet_spans(flags: &mut [u8], words: &[u64], i: usize, n: usize, reach: Reach) -> usize
    requires { (i ≤ n) × (2 * n ≤ length words.now) × All (PartBelow (length flags.old)) (pieces_at words.now 0 n) }
    ensures lower_bound { (i ≤ result) × (result ≤ n) × (result < n → 562949953421312 ≤ get_or words.now (2 * result + 1) 0) }
    ensures by_index { (f : ℕ → ℕ) (lo hi : ℕ) → reach.from ≡ f lo → reach.end ≡ reach_end reach.from hi → raise_all (met_parts f lo hi (pieces_at words.now (2 * result) (n - result))) flags.new ≡ raise_all (met_parts f lo hi (pieces_at words.now (2 * i) (n - i))) flags.old }
{
    for j in i..n {
        let at = 2 * j;
        let w = words[at + 1];
        if 562949953421312 <= w {
            return j;
        }
        let a = words[at];
        let b = w % 8589934592;
        let k = (w / 8589934592) as usize;
        mark(flags, k, (a < reach.end) & (reach.from <= b));
    }
    n
}

// A 1 at each part of which one of the pieces from i to the first pattern is met, or to n. Answers where the next one is.
fn meet_run(
    flags: &mut [u8],
    words: &[u64],
    i: usize,
    n: usize,
    spans: &[u64],
    reach: Reach,
    ask: Ask,
) -> usize
    requires i_lt_n { (i < n) × (2 * n ≤ length words.now) × (reach.from ≡ free_value spans.now ask.low ask.lo) × (reach.end ≡ reach_end reach.from ask.hi) × (apart spans.now ≡ true) }
    requires all { All (PartBelow (length flags.old)) (pieces_at words.now 0 n) }
    ensures { (i < result) × (result ≤ n) × (raise_all (met_parts (free_value spans.now ask.low) ask.lo ask.hi (pieces_at words.now (2 * result) (n - result))) flags.new ≡ raise_all (met_parts (free_value spans.now ask.low) ask.lo ask.hi (pieces_at words.now (2 * i) (n - i))) flags.old) }
{
    let j = meet_spans(flags, words, i, n, reach);
    if n <= j {
        return n;
    }
    meet_pattern(flags, words, 2 * j, spans, ask);
    j + 1
}

// A 1 at each part of which one of n pieces is met.
fn meet(flags: &mut [u8], words: &[u64], n: usize, spans: &[u64], ask: Ask)
    requires n_in_bounds { (2 * n ≤ length words.now) × (apart spans.now ≡ true) }
    requires all { All (PartBelow (length flags.old)) (pieces_at words.now 0 n) }
    ensures { flags.new ≡ raise_all (met_parts (free_value spans.now ask.low) ask.lo ask.hi (pieces_at words.now 0 n)) flags.old }
{
    let reach = reach_of(spans, ask);
    let mut i = 0;
    while i < n {
        i = meet_run(flags, words, i, n, spans, reach, ask);
    }
}

// A byte for each part: 1 where one of its pieces is met.
fn put_flags(flags: &mut [u8], words: &[u64], n: usize, spans: &[u64], ask: Ask)
    requires n_in_bounds { (2 * n ≤ length words.now) × (apart spans.now ≡ true) }
    requires all { All (PartBelow (length flags.old)) (pieces_at words.now 0 n) }
    ensures { flags.new ≡ met_flags (free_value spans.now ask.low) ask.lo ask.hi (pieces_at words.now 0 n) (length flags.old) }
{
    flags.fill(0);
    meet(flags, words, n, spans, ask);
}

// For each part of the point: whether it still holds a value from lo to hi. words has the point's pieces, two words each.
pub fn put_met(out: &mut [u8], at: usize, words: &[u64], spans: &[u64], ask: Ask)
    requires parts_in_bounds { (at + ask.parts ≤ length out.old) × All (PartBelow ask.parts) (pieces_at words.now 0 (length words.now / 2)) }
    requires spans_value { apart spans.now ≡ true }
    ensures { (t : Table) (p : ℕ) → Asked t p spans.now words.now ask.low ask.lo ask.hi ask.parts → out.new ≡ put at (met_bits t p ask.lo ask.hi) out.old }
{
    let n = words.len() / 2;
    let e = at + ask.parts;
    put_flags(&mut out[at..e], words, n, spans, ask);
}
