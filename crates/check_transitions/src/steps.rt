// Section 6: steps.
ghost use Rattle.std.specs.Prelude.{◌≡◌, ◌+◌, ◌*◌, ◌≤◌, length, Ok};
ghost use Rattle.model.specs.Format.{step_tests, read_steps, read_step_section, each};
ghost use Rattle.model.specs.Raw.{lengths_at, length_heads_at};
ghost use Rattle.words.specs.Verdicts.{verdict_of, verdict_in};

use layout::Section;
use words::bytes::{byte, inside};
use words::counts::owned_count;
use words::records::records;
use words::sums::sum_bytes;
use words::verdicts::{Fault, FaultClass, Verdict, test};

// The tests of the step at at, which is whole.
fn step_tests(t: &[u8], at: usize) -> Result<(), Fault>
    requires { (at + 3 ≤ length t.now) × (length t.now ≤ 65536) }
    ensures { result ≡ verdict_in (step_tests t.now at) (Ok tt) }
{
    let least = inside(t, at + 1);
    let most = inside(t, at + 2);
    test(1 <= inside(t, at), FaultClass::Count, at)?;
    test((1 <= least) & (least <= 32), FaultClass::Field, at + 1)?;
    test((1 <= most) & (most <= 32), FaultClass::Field, at + 2)?;
    test(least <= most, FaultClass::Field, at + 2)
}

// The n steps of one sequence, from start on.
fn sequence_steps(t: &[u8], n: usize, start: usize) -> Verdict
    requires { (start ≤ length t.now) × (length t.now ≤ 65536) × (n ≤ 255) }
    ensures { result ≡ verdict_of (read_steps t.now n start) }
{
    let end = records(t, 3, n, start, |place| step_tests(t, place))?;
    let leasts = sum_bytes(t, 3, start + 1, n);
    let mosts = sum_bytes(t, 3, start + 2, n);
    let last = end.saturating_sub(3);
    let summed = (2 <= leasts) & (mosts <= 32);
    test(summed, FaultClass::Disagreement, last)?;
    Ok(end)
}

// The steps of the n sequences whose records begin at q, from start on.
fn steps_each(t: &[u8], q: usize, n: usize, start: usize) -> Verdict
    requires { (start ≤ length t.now) × (length t.now ≤ 65536) × (q ≤ 65536) × (n ≤ 10000000000) }
    ensures { result ≡ verdict_of (each (read_steps t.now) (lengths_at t.now q n) start) }
{
    let mut at = start;
    let mut sequence = q;
    for i in 0..n {
        let k = byte(t, sequence) as usize;
        at = sequence_steps(t, k, at)?;
        sequence += 1;
    }
    Ok(at)
}

// The section whose count is at at, of these transition bins; the records of their sequences begin at q.
pub fn step_section(t: &[u8], bins: Section, q: usize, at: usize) -> Verdict
    requires { (at ≤ length t.now) × (length t.now ≤ 65536) × (bins.at + 4 * bins.count ≤ length t.now) × (q ≤ length t.now) }
    ensures { result ≡ verdict_of (read_step_section t.now (length_heads_at t.now bins.at q bins.count) at) }
{
    let sequences = sum_bytes(t, 4, bins.at + 3, bins.count);
    let sum = sum_bytes(t, 1, q, sequences);
    let start = owned_count(t, 256, sum, at)?;
    steps_each(t, q, sequences, start)
}
