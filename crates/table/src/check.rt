// The check of a table: all ten sections, then leftover bytes, then the limits of refusal 6.
ghost use Rattle.std.specs.Prelude.{◌≡◌, ◌+◌, ◌*◌, ◌≤◌, length};
ghost use Rattle.model.specs.Format.{bin_head, read_table};
ghost use Rattle.model.specs.Raw.{rows, points_at};
ghost use Rattle.words.specs.Verdicts.{verdict_of};
ghost use Rattle.ranges.specs.Types.{AllWide};
ghost use Rattle.words.specs.Points.{PointsBelow};
ghost use Rattle.table.specs.Check.{after_bins, checked, ExaminedOf};

use crate::answer::Facts;
use check_crosses::crosses;
use check_transitions::transition_bins;
use check_values::bins::bin_section;
use check_values::points::point_section;
use check_values::value_ranges::range_section;
use layout::Section;
use limits::tally;
use words::bytes::read2;
use words::verdicts::{Fault, FaultClass, Verdict};

// Sections 3 to 10, after these points and value bins; section 3's count stands at at.
fn after_bins(t: &[u8], points: Section, bins: Section, at: usize) -> Verdict
    requires at_in_bounds { (at ≤ length t.now) × (points.at + 11 * points.count ≤ length t.now) × (bins.at + 8 * bins.count ≤ length t.now) × (length t.now ≤ 65536) × (points.count ≤ 16) }
    requires all_wide { AllWide t.now points.at points.count × PointsBelow t.now 8 bins.at bins.count points.count }
    ensures { result ≡ verdict_of (after_bins t.now (points_at t.now points.at points.count) (rows (bin_head t.now) 8 bins.at bins.count) at) }
{
    let fourth = range_section(t, points, bins, at)?;
    let eighth = transition_bins(t, points, fourth)?;
    crosses(t, points, bins, eighth)
}

// All ten sections.
fn sections(t: &[u8]) -> Verdict
    requires { length t.now ≤ 65536 }
    ensures { result ≡ verdict_of (read_table t.now 0) }
{
    let second = point_section(t, 0)?;
    let np = read2(t, 0) as usize;
    let third = bin_section(t, np, second)?;
    let nb = read2(t, second) as usize;
    let points = Section { at: 2, count: np };
    let bins = Section {
        at: second + 2,
        count: nb,
    };
    after_bins(t, points, bins, third)
}

// What the table counts, or its first fault.
pub fn examine(t: &[u8]) -> Result<Facts, Fault>
    ensures { ExaminedOf t.now result }
{
    let len = t.len();
    if 65536 < len {
        return Err(Fault {
            class: FaultClass::TooLong,
            at: 0,
        });
    }
    let end = sections(t)?;
    if end != len {
        return Err(Fault {
            class: FaultClass::Leftover,
            at: end,
        });
    }
    let n = tally(t);
    let Some(counters) = n.counters else {
        return Err(Fault {
            class: FaultClass::Limits,
            at: len,
        });
    };
    let points = read2(t, 0);
    Ok(Facts {
        points: points as usize,
        counters,
        runs: n.runs,
        illegals: n.illegals,
    })
}

// The verdict by itself: the table's length, if there is no fault.
pub fn check(t: &[u8]) -> Verdict
    ensures { result ≡ checked t.now }
{
    examine(t)?;
    Ok(t.len())
}
