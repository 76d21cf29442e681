// Section 8: crosses.
#![tactic(auto, unfolding(words::specs::Verdicts::verdict_of, words::specs::Verdicts::verdict_in, model::specs::Format::read_record, model::specs::Format::tested, model::specs::Format::read_cross, crate::specs::Crosses::cross_end))]

ghost use Rattle.std.specs.Prelude.{◌≡◌, [], ◌∷◌, Ok, ◌+◌, ◌≤◌, length};
ghost use Rattle.model.specs.Format.{byte, all_different, cross_points, cross_point_test, read_cross, times, read_cross_section};
ghost use Rattle.words.specs.Verdicts.{verdict_of, verdict_in};
ghost use Rattle.check_crosses.specs.Crosses.{point_tests, cross_end};

use words::bytes::{inside, read2, read4};
use words::counts::section_count;
use words::guards::guard_ok;
use words::verdicts::{Fault, FaultClass, Verdict, test, whole};

// Whether the points of a cross of at most four are different.
fn points_differ(t: &[u8], at: usize) -> bool
    requires { (at + 13 ≤ length t.now) × (length t.now ≤ 65536) × (byte t.now at ≤ 4) }
    ensures { result ≡ all_different (cross_points t.now at) }
{
    let n = inside(t, at) as usize;
    for i in 0..n {
        for j in i + 1..n {
            if inside(t, at + 1 + i) == inside(t, at + 1 + j) {
                return false;
            }
        }
    }
    true
}

// The tests after those on the points.
fn cross_end(t: &[u8], at: usize) -> Result<(), Fault>
    requires { (at + 13 ≤ length t.now) × (length t.now ≤ 65536) × (byte t.now at ≤ 4) }
    ensures { result ≡ verdict_in (cross_end t.now at) (Ok tt) }
{
    let guarded = guard_ok(inside(t, at + 5));
    let reached = 1 <= read4(t, at + 8);
    let few = inside(t, at + 12) <= 16;
    let different = points_differ(t, at);
    if guarded & reached & few & different {
        return Ok(());
    }
    test(guarded, FaultClass::Field, at + 5)?;
    test(reached, FaultClass::Field, at + 8)?;
    test(few, FaultClass::Count, at + 12)?;
    test(different, FaultClass::Disagreement, at)
}

// The i-th of the four points: one of the table's, or unused.
fn point_test(t: &[u8], points: usize, at: usize, i: usize) -> Result<(), Fault>
    requires { (at + 13 ≤ length t.now) × (length t.now ≤ 65536) × (i ≤ 3) }
    ensures { result ≡ verdict_in (cross_point_test t.now points at i ∷ []) (Ok tt) }
{
    let place = at + 1 + i;
    let p = inside(t, place) as usize;
    let n = inside(t, at) as usize;
    if i < n {
        return test(p < points, FaultClass::Field, place);
    }
    test(p == 255, FaultClass::Unused, place)
}

fn point_tests(t: &[u8], points: usize, at: usize) -> Result<(), Fault>
    requires { (at + 13 ≤ length t.now) × (length t.now ≤ 65536) }
    ensures { result ≡ verdict_in (point_tests t.now points at 0 4) (Ok tt) }
{
    for i in 0..4 {
        point_test(t, points, at, i)?;
    }
    Ok(())
}

fn cross(t: &[u8], points: usize, at: usize) -> Verdict
    requires { (at ≤ length t.now) × (length t.now ≤ 65536) }
    ensures { result ≡ verdict_of (read_cross t.now points at) }
{
    let end = whole(t, at, 13)?;
    let n = inside(t, at);
    test((2..=4).contains(&n), FaultClass::Field, at)?;
    point_tests(t, points, at)?;
    cross_end(t, at)?;
    Ok(end)
}

// n crosses from start on.
fn crosses_of(t: &[u8], points: usize, n: usize, start: usize) -> Verdict
    requires { (start ≤ length t.now) × (length t.now ≤ 65536) }
    ensures { result ≡ verdict_of (times n (read_cross t.now points) start) }
{
    let mut at = start;
    for i in 0..n {
        at = cross(t, points, at)?;
    }
    Ok(at)
}

// Section 8, at at, in a table with that many points.
pub fn cross_section(t: &[u8], points: usize, at: usize) -> Verdict
    requires { (at ≤ length t.now) × (length t.now ≤ 65536) }
    ensures { result ≡ verdict_of (read_cross_section t.now points at) }
{
    let start = section_count(t, 0, 8, at)?;
    let n = read2(t, at) as usize;
    crosses_of(t, points, n, start)
}
