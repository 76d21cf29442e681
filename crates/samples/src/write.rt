// The whole of what an accepted sample writes.
ghost use Rattle.std.specs.Prelude.{◌≡◌, true, ◌≤◌, ◌+◌, ◌*◌, length};
ghost use Rattle.model.specs.Format.{accepted, table_of};
ghost use Rattle.model.specs.Register.{counter_total, point_total, long_enough, in_widths, sampled_words, sampled_report};
ghost use Rattle.arrays.specs.Put.{put};
ghost use Rattle.arrays.specs.Flat.{reading_codes};
ghost use Rattle.places.specs.Places.{is_set, places_from};
ghost use Rattle.samples.specs.Prepared.{Prepared};
ghost use Rattle.samples.specs.Writes.{sample_refusal, runs_after, flags_after};

use crate::counts::raise_counts;
use crate::listed::report_listed;
use arrays::element;
use arrays::reading::Reading;
use engine::find_hits;
use layout::point_count;
use lists::{BINS_AT, COUNTERS_AT, ROWS_AT};
use points::readings::read_all;
use runs::take::{RunPlace, take_runs};

// Advances the run words and finds the places that the sample hits. Answers how many.
fn find(
    register: &mut [u32],
    hits: &mut [u16],
    readings: &mut [Reading],
    t: &[u8],
    sample: &[u32],
    plan: &[u64],
    lists: &[u16],
) -> usize
    requires { (accepted t.now ≡ true) × Prepared (table_of t.now) plan.now lists.now × (long_enough (table_of t.now) register.old ≡ true) × (in_widths (table_of t.now) sample.now ≡ true) × (length sample.now ≡ 4 + 2 * point_total (table_of t.now)) × (counter_total (table_of t.now) + 256 ≤ length hits.old) × (16 ≤ length readings.old) }
    ensures register_after { register.new ≡ put (2 + counter_total (table_of t.now) + point_total (table_of t.now)) (runs_after (table_of t.now) sample.now register.old) register.old }
    ensures value { (result ≡ length (places_from is_set 0 (flags_after (table_of t.now) sample.now register.old))) × (hits.new ≡ put 0 (places_from is_set 0 (flags_after (table_of t.now) sample.now register.old)) hits.old) }
    ensures readings_after { readings.new ≡ put 0 (reading_codes (table_of t.now) sample.now) readings.old }
{
    let n = point_count(t);
    let k = element(lists, COUNTERS_AT) as usize;
    let at = 2 + k + n;
    read_all(readings, t, sample);
    let b = element(lists, BINS_AT) as usize;
    let q = RunPlace {
        words: at,
        rows: 0,
        bins: b,
    };
    let mut lens = [0u32; 64];
    take_runs(register, &mut lens, t, plan, readings, q);
    let m = element(lists, ROWS_AT) as usize;
    find_hits(hits, t, sample, readings, &lens, &plan[m..], lists)
}

// What an accepted sample writes, by what was worked out of its table. hits is scratch.
pub fn write_planned(
    register: &mut [u32],
    report: &mut [u32],
    t: &[u8],
    sample: &[u32],
    plan: &[u64],
    lists: &[u16],
    hits: &mut [u16],
)
    requires { (accepted t.now ≡ true) × Prepared (table_of t.now) plan.now lists.now × (counter_total (table_of t.now) + 256 ≤ length hits.old) × (sample_refusal (table_of t.now) sample.now register.old report.old ≡ 0) }
    ensures register_after { register.new ≡ sampled_words (table_of t.now) sample.now register.old }
    ensures report_after { report.new ≡ sampled_report (table_of t.now) sample.now register.old report.old }
{
    let mut readings = [Reading::Skipped; 16];
    let n = point_count(t);
    let k = element(lists, COUNTERS_AT) as usize;
    let m = find(register, hits, &mut readings, t, sample, plan, lists);
    raise_counts(register, &hits[..m], &readings, k, n);
    let at = 81 + 514 * n;
    let c = element(lists, at) as usize;
    report_listed(report, &lists[at + 1..at + 1 + c], &hits[..m]);
}
