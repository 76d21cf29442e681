// Section 5: sequences.
ghost use Rattle.std.specs.Prelude.{◌≡◌, ◌+◌, ◌*◌, ◌≤◌, length};
ghost use Rattle.model.specs.Lists.{within};
ghost use Rattle.model.specs.Format.{byte, transition_head, read_sequence_section};
ghost use Rattle.model.specs.Raw.{rows};
ghost use Rattle.words.specs.Verdicts.{verdict_of, tested};

use layout::Section;
use words::bytes::inside;
use words::counts::owned_count;
use words::records::records;
use words::sums::sum_bytes;
use words::verdicts::{Fault, FaultClass, Verdict, test};

// The test of the sequence at at, which is whole.
fn sequence_test(t: &[u8], at: usize) -> Result<(), Fault>
    requires { (at + 1 ≤ length t.now) × (length t.now ≤ 65536) }
    ensures { result ≡ tested (within 1 16 (byte t.now at)) FaultClass.Count at }
{
    let steps = inside(t, at);
    test((1 <= steps) & (steps <= 16), FaultClass::Count, at)
}

// The section whose count is at at, of these transition bins.
pub fn sequence_section(t: &[u8], bins: Section, at: usize) -> Verdict
    requires { (at ≤ length t.now) × (length t.now ≤ 65536) × (bins.at + 4 * bins.count ≤ length t.now) }
    ensures { result ≡ verdict_of (read_sequence_section t.now (rows (transition_head t.now) 4 bins.at bins.count) at) }
{
    let sum = sum_bytes(t, 4, bins.at + 3, bins.count);
    let start = owned_count(t, 64, sum, at)?;
    records(t, 1, sum, start, |place| sequence_test(t, place))
}
