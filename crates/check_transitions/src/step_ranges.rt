// Section 7: step ranges.
ghost use Rattle.std.specs.Prelude.{◌≡◌, true, ◌+◌, ◌*◌, ◌<◌, ◌≤◌, length, get_or};
ghost use Rattle.model.specs.Table.{no_point};
ghost use Rattle.model.specs.Format.{read_range, read_transition_ranges, read_step_range_section, times, each};
ghost use Rattle.model.specs.Raw.{points_at, transition_heads_at};
ghost use Rattle.words.specs.Verdicts.{verdict_of};
ghost use Rattle.ranges.specs.Types.{AllWide};
ghost use Rattle.words.specs.Points.{PointsBelow};
ghost use Rattle.words.specs.Sums.{byte_sum};

use layout::Section;
use ranges::ranges_of;
use words::bytes::byte;
use words::counts::owned_count;
use words::sums::sum_bytes;
use words::verdicts::Verdict;

// The ranges of the k steps whose records begin at p, of the bin whose record is at b, in a table with these points.
fn bin_ranges(t: &[u8], points: Section, b: usize, p: usize, k: usize, at: usize) -> Verdict
    requires at_in_bounds { (at ≤ length t.now) × (length t.now ≤ 65536) × (points.at + 11 * points.count ≤ length t.now) × (p ≤ 1000000000000) × (k ≤ 10000000000) }
    requires b_bound { (get_or t.now b 0 < points.count) × AllWide t.now points.at points.count }
    ensures { result ≡ verdict_of (times (byte_sum t.now 3 p k) (read_range t.now (get_or (points_at t.now points.at points.count) (get_or t.now b 0) no_point) true) at) }
{
    let point = byte(t, b) as usize;
    let n = sum_bytes(t, 3, p, k);
    ranges_of(t, points.at + 11 * point, true, n, at)
}

// The step ranges of the transition bins, from start on.
fn ranges_each(
    t: &[u8],
    points: Section,
    bins: Section,
    q: usize,
    p: usize,
    start: usize,
) -> Verdict
    requires start_in_bounds { (start ≤ length t.now) × (length t.now ≤ 65536) × (points.at + 11 * points.count ≤ length t.now) × (bins.at + 4 * bins.count ≤ length t.now) × (q ≤ length t.now) × (p ≤ length t.now) }
    requires points_below { PointsBelow t.now 4 bins.at bins.count points.count × AllWide t.now points.at points.count }
    ensures { result ≡ verdict_of (each (read_transition_ranges t.now (points_at t.now points.at points.count)) (transition_heads_at t.now bins.at q p bins.count) start) }
{
    let mut at = start;
    let mut bin = bins.at;
    let mut sequence = q;
    let mut step = p;
    for i in 0..bins.count {
        let m = byte(t, bin + 3) as usize;
        let k = sum_bytes(t, 1, sequence, m);
        at = bin_ranges(t, points, bin, step, k, at)?;
        bin += 4;
        sequence += m;
        step += 3 * k;
    }
    Ok(at)
}

// The section whose count is at at, of these transition bins; the records of their sequences begin at q, of their steps at p.
pub fn step_range_section(
    t: &[u8],
    points: Section,
    bins: Section,
    q: usize,
    p: usize,
    at: usize,
) -> Verdict
    requires at_in_bounds { (at ≤ length t.now) × (length t.now ≤ 65536) × (points.at + 11 * points.count ≤ length t.now) × (bins.at + 4 * bins.count ≤ length t.now) × (q ≤ length t.now) × (p ≤ length t.now) }
    requires points_below { PointsBelow t.now 4 bins.at bins.count points.count × AllWide t.now points.at points.count }
    ensures { result ≡ verdict_of (read_step_range_section t.now (points_at t.now points.at points.count) (transition_heads_at t.now bins.at q p bins.count) at) }
{
    let sequences = sum_bytes(t, 4, bins.at + 3, bins.count);
    let steps = sum_bytes(t, 1, q, sequences);
    let sum = sum_bytes(t, 3, p, steps);
    let start = owned_count(t, 512, sum, at)?;
    ranges_each(t, points, bins, q, p, start)
}
