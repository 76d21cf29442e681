// Section 1: points.
ghost use Rattle.std.specs.Prelude.{◌≡◌, ◌+◌, ◌≤◌, length, Ok};
ghost use Rattle.model.specs.Format.{point_tests, read_point_section};
ghost use Rattle.words.specs.Verdicts.{verdict_of, verdict_in};

use words::bytes::{inside, read2, read4, whole2};
use words::counts::section_count;
use words::guards::guard_ok;
use words::records::records;
use words::verdicts::{Fault, FaultClass, Verdict, test};

// The tests of the point at at, which is whole.
fn point_tests(t: &[u8], at: usize) -> Result<(), Fault>
    requires { (at + 11 ≤ length t.now) × (length t.now ≤ 65536) }
    ensures { result ≡ verdict_in (point_tests t.now at) (Ok tt) }
{
    let width = inside(t, at);
    let sign = inside(t, at + 1);
    let least = read4(t, at + 5);
    let most = whole2(t, at + 9);
    let wide = (1 <= width) & (width <= 32);
    let signed = sign <= 1;
    let guarded = guard_ok(inside(t, at + 2));
    let reached = 1 <= least;
    let automatic = (1 <= most) & (most <= 256);
    if wide & signed & guarded & reached & automatic {
        return Ok(());
    }
    test(wide, FaultClass::Field, at)?;
    test(signed, FaultClass::Field, at + 1)?;
    test(guarded, FaultClass::Field, at + 2)?;
    test(reached, FaultClass::Field, at + 5)?;
    test(automatic, FaultClass::Field, at + 9)
}

// The section whose count stands at at.
pub fn point_section(t: &[u8], at: usize) -> Verdict
    requires { (at ≤ length t.now) × (length t.now ≤ 65536) }
    ensures { result ≡ verdict_of (read_point_section t.now at) }
{
    let start = section_count(t, 1, 16, at)?;
    let n = read2(t, at) as usize;
    records(t, 11, n, start, |place| point_tests(t, place))
}
