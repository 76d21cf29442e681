// The check of sections 8 to 10 of a table: crosses, cross bins, select tokens.
#![tactic(auto)]

pub mod bins;
pub mod heads;
pub mod selects;

ghost use Rattle.std.specs.Prelude.{◌≡◌, ◌+◌, ◌*◌, ◌≤◌, length};
ghost use Rattle.model.specs.Format.{bin_head, read_crosses};
ghost use Rattle.model.specs.Raw.{rows, points_at};
ghost use Rattle.words.specs.Verdicts.{verdict_of};
ghost use Rattle.ranges.specs.Types.{AllWide};

use crate::bins::cross_bin_section;
use crate::heads::cross_section;
use crate::selects::token_section;
use layout::Section;
use words::bytes::read2;
use words::verdicts::Verdict;

// Sections 8 to 10, from at on, after these points and value bins.
// These stay two parameters: facts on them speak of t, and in a struct that borrows t each clause would read `s.entry.t.now` for `t.now`.
pub fn crosses(t: &[u8], points: Section, bins: Section, at: usize) -> Verdict
    requires at_in_bounds { (at ≤ length t.now) × (length t.now ≤ 65536) × (points.at + 11 * points.count ≤ length t.now) × (points.count ≤ 16) × (bins.at + 8 * bins.count ≤ length t.now) }
    requires all_wide { AllWide t.now points.at points.count }
    ensures { result ≡ verdict_of (read_crosses t.now (points_at t.now points.at points.count) (rows (bin_head t.now) 8 bins.at bins.count) at) }
{
    let ninth = cross_section(t, points.count, at)?;
    let crosses = Section {
        at: at + 2,
        count: read2(t, at) as usize,
    };
    let tenth = cross_bin_section(t, crosses, ninth)?;
    token_section(t, points, bins, crosses, ninth + 2, tenth)
}
