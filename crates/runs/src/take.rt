// What a sample does to the runs of all sequences, and the lengths at which they then match, by the rows of the sequences.
ghost use Rattle.std.specs.Prelude.{◌≡◌, true, List, ℕ, ◌+◌, ◌<◌, ◌≤◌, length, get_or, take, drop};
ghost use Rattle.model.specs.Lists.{sum_of};
ghost use Rattle.model.specs.Table.{Step};
ghost use Rattle.model.specs.Sampling.{known, run_length, next_run, matched_lengths};
ghost use Rattle.model.specs.Counters.{transition_bin_at};
ghost use Rattle.model.specs.Format.{accepted, table_of};
ghost use Rattle.model.specs.Register.{sequences, run_total, next_runs, bin_lengths, all_lengths};
ghost use Rattle.arrays.specs.Put.{put};
ghost use Rattle.arrays.specs.Flat.{reading_from, Readings};
ghost use Rattle.sequences.specs.Shapes.{shape_of, admitted_bits, words_of, Fits};
ghost use Rattle.runs.specs.Runs.{next_bin};
ghost use Rattle.runs.specs.Rows.{step_ranges, sequence_row, bin_row, Stands, RowFits, SequencesAt};

use arrays::reading::Reading;
use ranges::member::holds;
use sequences::{matched_lengths, write_run};
use words::choices::pick;

// The bits of the steps that hold the value, by the words of their ranges.
fn admitted(ranges: &[u64], v: u64) -> u64
    ensures { (ss : List Step) → ranges.now ≡ step_ranges 0 ss → result ≡ admitted_bits ss (known v) }
{
    let n = ranges.len() / 4;
    let mut r: u64 = 0;
    for i in 0..n {
        let at = 4 * i;
        let h = holds(ranges[at + 1], ranges[at + 2], ranges[at + 3], v);
        r |= pick(h, ranges[at], 0);
    }
    r
}

// The same of a reading.
fn admitted_by(ranges: &[u64], reading: Reading) -> u64
    ensures { (ss : List Step) → ranges.now ≡ step_ranges 0 ss → result ≡ admitted_bits ss (reading_from reading) }
{
    match reading {
        Reading::Known(v) => admitted(ranges, v),
        _ => 0,
    }
}

// A sequence's next run over its words. A skipped reading leaves them as they are.
fn next_run(words: &mut [u32], shape: &[u64], ranges: &[u64], reading: Reading)
    requires { Fits shape.now × (length words.old ≡ words_of shape.now) }
    ensures { (ss : List Step) → shape.now ≡ shape_of ss → ranges.now ≡ step_ranges 0 ss → words.new ≡ next_run ss words.old (reading_from reading) }
{
    if reading.is_skipped() {
        return;
    }
    let bits = admitted_by(ranges, reading);
    write_run(words, shape, bits);
}

// The same; answers the lengths at which the sequence then matches.
fn take_sequence(words: &mut [u32], shape: &[u64], ranges: &[u64], reading: Reading) -> u32
    requires { Fits shape.now × (length words.old ≡ words_of shape.now) }
    ensures { (ss : List Step) → shape.now ≡ shape_of ss → ranges.now ≡ step_ranges 0 ss → (words.new ≡ next_run ss words.old (reading_from reading)) × (result ≡ matched_lengths ss (next_run ss words.old (reading_from reading))) }
{
    next_run(words, shape, ranges, reading);
    matched_lengths(words, shape)
}

// Where the next row stands in the plan, and where its run words stand in the register.
#[derive(Clone, Copy)]
pub struct RowPlace {
    pub row: usize,
    pub words: usize,
}

// The lengths at which what was taken matches, and where the row and the run words after it begin.
#[derive(Clone, Copy)]
struct Taken {
    lengths: u32,
    next: RowPlace,
}

// The sequence whose row and run words begin at place.
fn take_row(register: &mut [u32], plan: &[u64], place: RowPlace, reading: Reading) -> Taken
    requires { RowFits plan.now place.row × (place.words + get_or plan.now (place.row + 1) 0 ≤ length register.old) }
    ensures row_value { (ss : List Step) → Stands plan.now place.row (sequence_row ss) → (result.next.row ≡ place.row + length (sequence_row ss)) × (result.next.words ≡ place.words + run_length ss) }
    ensures register_after { (ss : List Step) → Stands plan.now place.row (sequence_row ss) → (register.new ≡ put place.words (next_run ss (take (run_length ss) (drop place.words register.old)) (reading_from reading)) register.old) × (result.lengths ≡ matched_lengths ss (next_run ss (take (run_length ss) (drop place.words register.old)) (reading_from reading))) }
{
    let row = place.row;
    let words = place.words;
    let shape = row + 3;
    let ranges = shape + 2 * (plan[row] as usize);
    let end = ranges + 4 * (plan[row + 2] as usize);
    let stop = words + (plan[row + 1] as usize);
    let lengths = take_sequence(
        &mut register[words..stop],
        &plan[shape..ranges],
        &plan[ranges..end],
        reading,
    );
    let next = RowPlace {
        row: end,
        words: stop,
    };
    Taken { lengths, next }
}

// The sequences of bin b, whose row and run words begin at place. The table is there for the contract.
fn take_bin(
    register: &mut [u32],
    t: &[u8],
    plan: &[u64],
    readings: &[Reading],
    b: usize,
    place: RowPlace,
) -> Taken
    requires { (accepted t.now ≡ true) × (16 ≤ length readings.now) × (b < length (table_of t.now).transition_bins) × Stands plan.now place.row (bin_row (transition_bin_at (table_of t.now) b)) × (place.words + sum_of run_length (transition_bin_at (table_of t.now) b).sequences ≤ length register.old) }
    ensures row_value { (result.next.row ≡ place.row + length (bin_row (transition_bin_at (table_of t.now) b))) × (result.next.words ≡ place.words + sum_of run_length (transition_bin_at (table_of t.now) b).sequences) }
    ensures register_after { (register.new ≡ put place.words (next_bin readings.now (transition_bin_at (table_of t.now) b) (drop place.words register.old)) register.old) × (result.lengths ≡ bin_lengths (transition_bin_at (table_of t.now) b).sequences (next_bin readings.now (transition_bin_at (table_of t.now) b) (drop place.words register.old))) }
{
    let from = place.row;
    let reading = readings[plan[from] as usize];
    let n = plan[from + 1] as usize;
    let mut lengths: u32 = 0;
    let mut next = RowPlace {
        row: from + 2,
        words: place.words,
    };
    for i in 0..n {
        let e = take_row(register, plan, next, reading);
        lengths |= e.lengths;
        next = e.next;
    }
    Taken { lengths, next }
}

// Where the run words stand in the register, where the rows of the sequences stand in the plan, and how many transition bins there are.
#[derive(Clone, Copy)]
pub struct RunPlace {
    pub words: usize,
    pub rows: usize,
    pub bins: usize,
}

// Every sequence's next run, and the lengths at which each transition bin then matches. The table is there for the contract; readings has each point's reading.
pub fn take_runs(
    register: &mut [u32],
    lens: &mut [u32],
    t: &[u8],
    plan: &[u64],
    readings: &[Reading],
    q: RunPlace,
)
    requires t_value { (accepted t.now ≡ true) × SequencesAt (table_of t.now) plan.now q.rows × (q.bins ≡ length (table_of t.now).transition_bins) }
    requires in_bounds { (16 ≤ length readings.now) × (64 ≤ length lens.old) × (q.words ≤ 65536) × (q.words + run_total (table_of t.now) ≤ length register.old) }
    ensures by_index { (w : List ℕ) → Readings (table_of t.now) w readings.now → register.new ≡ put q.words (next_runs (table_of t.now) w (sequences (table_of t.now)) (take (run_total (table_of t.now)) (drop q.words register.old))) register.old }
    ensures lens_after { lens.new ≡ put 0 (all_lengths (table_of t.now).transition_bins (take (run_total (table_of t.now)) (drop q.words register.new))) lens.old }
{
    let n = q.bins;
    let mut place = RowPlace {
        row: q.rows,
        words: q.words,
    };
    for i in 0..n {
        let e = take_bin(register, t, plan, readings, i, place);
        lens[i] = e.lengths;
        place = e.next;
    }
}
