// Section 3: the ranges of the value bins.
ghost use Rattle.std.specs.Prelude.{◌≡◌, ◌+◌, ◌*◌, ◌≤◌, length};
ghost use Rattle.model.specs.Format.{each, bin_head, ranges_owned, read_bin_ranges, read_range_section};
ghost use Rattle.model.specs.Raw.{rows, points_at};
ghost use Rattle.words.specs.Sums.{sum_from};
ghost use Rattle.words.specs.Verdicts.{verdict_of};
ghost use Rattle.ranges.specs.Types.{AllWide};
ghost use Rattle.words.specs.Points.{PointsBelow};
ghost use Rattle.check_values.specs.Places.{Typed};

use layout::Section;
use ranges::{ranges_of, sound_spans};
use words::bytes::{inside, whole2};
use words::counts::owned_count;
use words::kinds::Kind;
use words::verdicts::Verdict;

// The ranges that the bins own together.
fn owned_ranges(t: &[u8], bins: Section) -> usize
    requires { (bins.at + 8 * bins.count ≤ length t.now) × (length t.now ≤ 65536) }
    ensures { result ≡ sum_from 0 ranges_owned (bin_head t.now) 8 bins.at bins.count }
{
    let mut sum = 0;
    let mut at = bins.at;
    for i in 0..bins.count {
        sum += whole2(t, at + 6) as usize;
        at += 8;
    }
    sum
}

// The ranges of the bin whose record is at bin, in a table with these points.
fn bin_ranges(t: &[u8], points: Section, bin: usize, at: usize) -> Verdict
    requires { (at ≤ length t.now) × (length t.now ≤ 65536) × (bin + 8 ≤ length t.now) × Typed t.now points.at points.count bin }
    ensures { result ≡ verdict_of (read_bin_ranges t.now (points_at t.now points.at points.count) (bin_head t.now bin) at) }
{
    let point = points.at + 11 * inside(t, bin) as usize;
    let n = whole2(t, bin + 6) as usize;
    if sound_spans(t, point, n, at) {
        return Ok(at + 17 * n);
    }
    let kind = Kind::from(inside(t, bin + 1));
    let form = inside(t, bin + 2);
    ranges_of(t, point, (kind == Kind::Cover) & (form == 0), n, at)
}

// The ranges of the bins, from start on.
fn ranges_fault(t: &[u8], points: Section, bins: Section, start: usize) -> Verdict
    requires start_in_bounds { (start ≤ length t.now) × (points.at + 11 * points.count ≤ length t.now) × (bins.at + 8 * bins.count ≤ length t.now) × (length t.now ≤ 65536) }
    requires all_wide { AllWide t.now points.at points.count × PointsBelow t.now 8 bins.at bins.count points.count }
    ensures { result ≡ verdict_of (each (read_bin_ranges t.now (points_at t.now points.at points.count)) (rows (bin_head t.now) 8 bins.at bins.count) start) }
{
    let mut at = start;
    let mut bin = bins.at;
    for i in 0..bins.count {
        at = bin_ranges(t, points, bin, at)?;
        bin += 8;
    }
    Ok(at)
}

// The section whose count stands at at, after points with widths and bins of points that are there.
pub fn range_section(t: &[u8], points: Section, bins: Section, at: usize) -> Verdict
    requires at_in_bounds { (at ≤ length t.now) × (points.at + 11 * points.count ≤ length t.now) × (bins.at + 8 * bins.count ≤ length t.now) × (length t.now ≤ 65536) }
    requires all_wide { AllWide t.now points.at points.count × PointsBelow t.now 8 bins.at bins.count points.count }
    ensures { result ≡ verdict_of (read_range_section t.now (points_at t.now points.at points.count) (rows (bin_head t.now) 8 bins.at bins.count) at) }
{
    let sum = owned_ranges(t, bins);
    let start = owned_count(t, 1024, sum, at)?;
    ranges_fault(t, points, bins, start)
}
