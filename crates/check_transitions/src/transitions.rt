// Section 4: transition bins.
ghost use Rattle.std.specs.Prelude.{◌≡◌, ◌+◌, ◌≤◌, length, Ok};
ghost use Rattle.model.specs.Format.{transition_tests, read_transition_section};
ghost use Rattle.words.specs.Verdicts.{verdict_of, verdict_in};

use words::bytes::{inside, read2};
use words::counts::section_count;
use words::guards::bin_guard_ok;
use words::records::records;
use words::verdicts::{Fault, FaultClass, Verdict, test};

// The tests of the transition bin at at, which is whole.
fn transition_tests(t: &[u8], points: usize, at: usize) -> Result<(), Fault>
    requires { (at + 4 ≤ length t.now) × (length t.now ≤ 65536) }
    ensures { result ≡ verdict_in (transition_tests t.now points at) (Ok tt) }
{
    // The kind stays the byte, which is what is tested: above 2 it is refused.
    let kind = inside(t, at + 1);
    let guarded = bin_guard_ok(kind, inside(t, at + 2));
    test((inside(t, at) as usize) < points, FaultClass::Field, at)?;
    test(kind <= 2, FaultClass::Field, at + 1)?;
    test(guarded, FaultClass::Field, at + 2)?;
    test(1 <= inside(t, at + 3), FaultClass::Count, at + 3)
}

// The section whose count is at at; points says how many points there are.
pub fn transition_section(t: &[u8], points: usize, at: usize) -> Verdict
    requires { (at ≤ length t.now) × (length t.now ≤ 65536) }
    ensures { result ≡ verdict_of (read_transition_section t.now points at) }
{
    let start = section_count(t, 0, 64, at)?;
    let n = read2(t, at) as usize;
    records(t, 4, n, start, |place| transition_tests(t, points, place))
}
