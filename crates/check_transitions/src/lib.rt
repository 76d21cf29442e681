// The check of sections 4 to 7 of a table: transition bins, their sequences, their steps, their step ranges.
#![tactic(auto)]

pub mod sequences;
pub mod step_ranges;
pub mod steps;
pub mod transitions;

ghost use Rattle.std.specs.Prelude.{◌≡◌, ◌+◌, ◌*◌, ◌≤◌, length};
ghost use Rattle.model.specs.Format.{read_transition_bins};
ghost use Rattle.model.specs.Raw.{points_at};
ghost use Rattle.words.specs.Verdicts.{verdict_of};
ghost use Rattle.ranges.specs.Types.{AllWide};

use crate::sequences::sequence_section;
use crate::step_ranges::step_range_section;
use crate::steps::step_section;
use crate::transitions::transition_section;
use layout::Section;
use words::bytes::read2;
use words::verdicts::Verdict;

// The four sections, in a table with these points; the count of the first is at at.
pub fn transition_bins(t: &[u8], points: Section, at: usize) -> Verdict
    requires { (at ≤ length t.now) × (length t.now ≤ 65536) × (points.at + 11 * points.count ≤ length t.now) × (points.count ≤ 16) × AllWide t.now points.at points.count }
    ensures { result ≡ verdict_of (read_transition_bins t.now (points_at t.now points.at points.count) at) }
{
    let fifth = transition_section(t, points.count, at)?;
    let bins = Section {
        at: at + 2,
        count: read2(t, at) as usize,
    };
    let q = fifth + 2;
    let sixth = sequence_section(t, bins, fifth)?;
    let seventh = step_section(t, bins, q, sixth)?;
    step_range_section(t, points, bins, q, sixth + 2, seventh)
}
