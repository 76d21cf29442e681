// The sequences of a table as rows of words, decoded once from its bytes.
ghost use Rattle.std.specs.Prelude.{◌≡◌, true, ◌∷◌, ◌+◌, ◌*◌, ◌<◌, ◌≤◌, length};
ghost use Rattle.model.specs.Lists.{all, concat_of};
ghost use Rattle.model.specs.Format.{accepted, table_of, range_record};
ghost use Rattle.model.specs.Raw.{ranges_at, range_total, steps_at, sequences_at, transitions_at};
ghost use Rattle.arrays.specs.Put.{put};
ghost use Rattle.runs.specs.Runs.{sequence_fits, bin_fits};
ghost use Rattle.runs.specs.Rows.{range_words, step_ranges, sequence_row, bin_row, sequence_rows, shape_at, mosts_at, Past};

use layout::{Layout, layout_of};
use ranges::{power, value_at};
use words::bytes::{byte, read8};

// The words of the range at p, whose step has that bit.
fn put_range(plan: &mut [u64], at: usize, t: &[u8], p: usize, bit: u64)
    requires { (p < 2000000000) × (at + 4 ≤ length plan.old) }
    ensures { plan.new ≡ put at (range_words bit (range_record t.now p)) plan.old }
{
    let kind = byte(t, p);
    let a = read8(t, p + 1);
    let b = read8(t, p + 9);
    let row = if kind == 0 {
        [bit, 0, value_at(a), value_at(b)]
    } else {
        [bit, 1, a, b]
    };
    plan[at..at + 4].copy_from_slice(&row);
}

// Those of n ranges from r on.
fn put_ranges(plan: &mut [u64], at: usize, t: &[u8], r: usize, n: usize, bit: u64)
    requires { (r < 1500000000) × (n < 256) × (at + 4 * n ≤ length plan.old) }
    ensures { plan.new ≡ put at (concat_of (range_words bit) (ranges_at t.now r n)) plan.old }
{
    for i in 0..n {
        put_range(plan, at + 4 * i, t, r + 17 * i, bit);
    }
}

// The ranges of n steps, whose records stand from p on, their ranges from r on. Answers how many.
fn put_step_ranges(plan: &mut [u64], at: usize, t: &[u8], p: usize, r: usize, n: usize) -> usize
    requires { (p < 1500000000) × (r < 1490000000) × (n ≤ 16) × (at + length (step_ranges 0 (steps_at t.now p r n)) ≤ length plan.old) }
    ensures { (result ≡ range_total t.now p n) × (result ≤ 255 * n) × (plan.new ≡ put at (step_ranges 0 (steps_at t.now p r n)) plan.old) }
{
    let mut total = 0;
    for i in 0..n {
        let k = byte(t, p + 3 * i) as usize;
        put_ranges(plan, at + 4 * total, t, r + 17 * total, k, power(i as u8));
        total += k;
    }
    total
}

// The shape of n steps, whose records stand from p on. Answers how many run words they have.
fn put_shape(plan: &mut [u64], at: usize, t: &[u8], p: usize, n: usize) -> usize
    requires { (p < 1500000000) × (n ≤ 16) × (at + 2 * n ≤ length plan.old) }
    ensures { (result ≡ mosts_at t.now p n) × (plan.new ≡ put at (shape_at t.now p n) plan.old) }
{
    let mut total = 0;
    for i in 0..n {
        let here = p + 3 * i;
        let m = byte(t, here + 2);
        plan[at + 2 * i] = byte(t, here + 1) as u64;
        plan[at + 2 * i + 1] = m as u64;
        total += m as usize;
    }
    total
}

// The row of a sequence of n steps. Answers how many ranges they have.
fn put_sequence(plan: &mut [u64], at: usize, t: &[u8], p: usize, r: usize, n: usize) -> usize
    requires { (p < 1500000000) × (r < 1490000000) × (n ≤ 16) × (at + length (sequence_row (steps_at t.now p r n)) ≤ length plan.old) }
    ensures { (result ≡ range_total t.now p n) × (result ≤ 255 * n) × (plan.new ≡ put at (sequence_row (steps_at t.now p r n)) plan.old) }
{
    let m = put_shape(plan, at + 3, t, p, n);
    let k = put_step_ranges(plan, at + 3 + 2 * n, t, p, r, n);
    plan[at] = n as u64;
    plan[at + 1] = m as u64;
    plan[at + 2] = k as u64;
    k
}

// Where the next row goes, and where the next steps and step ranges begin in the table.
#[derive(Clone, Copy)]
pub struct Cursor {
    pub at: usize,
    pub steps: usize,
    pub ranges: usize,
}

// The rows of n sequences, whose records stand from q on.
fn put_rows(plan: &mut [u64], t: &[u8], q: usize, place: Cursor, n: usize) -> Cursor
    requires q_bound { (q < 1000000000) × (place.steps < 1000000000) × (place.ranges < 1400000000) × (n < 256) × (all sequence_fits (sequences_at t.now q place.steps place.ranges n) ≡ true) }
    requires n_in_bounds { place.at + length (concat_of sequence_row (sequences_at t.now q place.steps place.ranges n)) ≤ length plan.old }
    ensures past { Past t.now q place.steps place.ranges n result.steps result.ranges }
    ensures at_value { (result.at ≡ place.at + length (concat_of sequence_row (sequences_at t.now q place.steps place.ranges n))) × (plan.new ≡ put place.at (concat_of sequence_row (sequences_at t.now q place.steps place.ranges n)) plan.old) }
{
    let mut c = place;
    for i in 0..n {
        let k = byte(t, q + i) as usize;
        let m = put_sequence(plan, c.at, t, c.steps, c.ranges, k);
        c.at += 3 + 2 * k + 4 * m;
        c.steps += 3 * k;
        c.ranges += 17 * m;
    }
    c
}

// The row of a bin, with its n sequences.
fn put_bin(plan: &mut [u64], t: &[u8], q: usize, place: Cursor, point: u8, n: u8) -> Cursor
    requires q_bound { (q < 1000000000) × (place.steps < 1000000000) × (place.ranges < 1400000000) × (all sequence_fits (sequences_at t.now q place.steps place.ranges n) ≡ true) }
    requires n_in_bounds { place.at + 2 + length (concat_of sequence_row (sequences_at t.now q place.steps place.ranges n)) ≤ length plan.old }
    ensures past { Past t.now q place.steps place.ranges n result.steps result.ranges }
    ensures at_value { (result.at ≡ place.at + 2 + length (concat_of sequence_row (sequences_at t.now q place.steps place.ranges n))) × (plan.new ≡ put place.at (point ∷ n ∷ concat_of sequence_row (sequences_at t.now q place.steps place.ranges n)) plan.old) }
{
    let at = place.at;
    let next = Cursor {
        at: at + 2,
        steps: place.steps,
        ranges: place.ranges,
    };
    plan[at] = point as u64;
    plan[at + 1] = n as u64;
    put_rows(plan, t, q, next, n as usize)
}

// The rows of the transition bins of a table with that layout. Answers where they end.
fn put_bins(plan: &mut [u64], at: usize, t: &[u8], l: Layout) -> usize
    requires transitions_bound { (l.transitions ≤ 16777216) × (l.sequences ≤ 16777216) × (l.steps ≤ 16777216) × (l.step_ranges ≤ 16777216) × (l.transition_count ≤ 64) }
    requires transition_count_value { (all bin_fits (transitions_at t.now l.transitions l.sequences l.steps l.step_ranges l.transition_count) ≡ true) × (at + length (concat_of bin_row (transitions_at t.now l.transitions l.sequences l.steps l.step_ranges l.transition_count)) ≤ length plan.old) }
    ensures { (result ≡ at + length (concat_of bin_row (transitions_at t.now l.transitions l.sequences l.steps l.step_ranges l.transition_count))) × (plan.new ≡ put at (concat_of bin_row (transitions_at t.now l.transitions l.sequences l.steps l.step_ranges l.transition_count)) plan.old) }
{
    let b = l.transitions;
    let n = l.transition_count;
    let mut sequence = l.sequences;
    let mut place = Cursor {
        at,
        steps: l.steps,
        ranges: l.step_ranges,
    };
    for i in 0..n {
        let here = b + 4 * i;
        let k = byte(t, here + 3);
        place = put_bin(plan, t, sequence, place, byte(t, here), k);
        sequence += k as usize;
    }
    place.at
}

// The rows of a table's sequences, from at on. Answers where they end.
pub fn put_sequences(plan: &mut [u64], at: usize, t: &[u8]) -> usize
    requires { (accepted t.now ≡ true) × (at + length (sequence_rows (table_of t.now)) ≤ length plan.old) }
    ensures { (result ≡ at + length (sequence_rows (table_of t.now))) × (plan.new ≡ put at (sequence_rows (table_of t.now)) plan.old) }
{
    let l = layout_of(t);
    put_bins(plan, at, t, l)
}
