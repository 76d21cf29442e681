// Section 2: value bins.
ghost use Rattle.std.specs.Prelude.{◌≡◌, [], ◌+◌, ◌*◌, ◌≤◌, Ok, eqb, length};
ghost use Rattle.model.specs.Lists.{any};
ghost use Rattle.model.specs.Format.{first_default, bin_head, bin_rules, read_bin_heads, read_bin_section};
ghost use Rattle.words.specs.Verdicts.{verdict_of, verdict_in};
ghost use Rattle.check_values.specs.Places.{defaults_up_to, fields_at, read_bin, is_default_of};

use words::bytes::{byte, inside, read2, whole2};
use words::choices::pick;
use words::counts::section_count;
use words::guards::bin_guard_ok;
use words::kinds::Kind;
use words::verdicts::{Fault, FaultClass, Verdict, test, whole};

// Whether the bin at at is a default of point p.
fn default_at(t: &[u8], at: usize, p: u8) -> bool
    requires { at ≤ 1000000 }
    ensures { result ≡ is_default_of t.now p at }
{
    let kind = Kind::from(byte(t, at + 1));
    (kind == Kind::Default) & (p == byte(t, at))
}

// Whether one of the first count bins is a default of point p.
fn has_default(t: &[u8], base: usize, p: u8, count: usize) -> bool
    requires { (base ≤ 65536) × (count ≤ 65536) }
    ensures { result ≡ any (eqb p) (defaults_up_to t.now base count) }
{
    for k in (0..count).rev() {
        if default_at(t, base + 8 * k, p) {
            return true;
        }
    }
    false
}

// Whether bin i is no second default of its point.
fn first_default(t: &[u8], base: usize, i: usize) -> bool
    requires { (base ≤ 65536) × (i ≤ 65536) }
    ensures { result ≡ first_default (bin_head t.now (base + 8 * i)) (defaults_up_to t.now base i) }
{
    let at = base + 8 * i;
    Kind::from(byte(t, at + 1)) != Kind::Default || !has_default(t, base, byte(t, at), i)
}

// The fields of a bin. The kind stays the byte, which is what is tested: above 3 it is refused.
#[derive(Clone, Copy)]
struct Bin {
    point: u8,
    kind: u8,
    form: u8,
    number: u16,
    guard: u8,
    ranges: u16,
}

fn bin_at(t: &[u8], at: usize) -> Bin
    requires { (at + 8 ≤ length t.now) × (length t.now ≤ 65536) }
    ensures { result ≡ fields_at t.now at }
{
    Bin {
        point: inside(t, at),
        kind: inside(t, at + 1),
        form: inside(t, at + 2),
        number: whole2(t, at + 3),
        guard: inside(t, at + 5),
        ranges: whole2(t, at + 6),
    }
}

// The tests on a bin's fields; first says that it is no second default. A sound bin passes at once.
fn bin_rules(points: usize, bin: Bin, first: bool, at: usize) -> Result<(), Fault>
    requires { at ≤ 65536 }
    ensures { result ≡ verdict_in (bin_rules points bin.point bin.kind bin.form bin.number bin.guard bin.ranges first at) (Ok tt) }
{
    let kind = bin.kind;
    let form = bin.form;
    let number = bin.number;
    let ranges = bin.ranges;
    let known = (bin.point as usize) < points;
    let kinds = kind <= 3;
    let forms = form <= 2;
    let single = (kind == 0) | (form == 0);
    let dealt = form == 2;
    let some = (1 <= number) & (number <= 256);
    let none = number == 0;
    let numbered = pick(dealt, some, none);
    let guarded = bin_guard_ok(kind, bin.guard);
    let owns = pick(kind == 3, ranges == 0, 1 <= ranges);
    if known & kinds & forms & single & numbered & guarded & owns & first {
        return Ok(());
    }
    test(known, FaultClass::Field, at)?;
    test(kinds, FaultClass::Field, at + 1)?;
    test(forms, FaultClass::Field, at + 2)?;
    test(single, FaultClass::Field, at + 2)?;
    test(!dealt | some, FaultClass::Field, at + 3)?;
    test(dealt | none, FaultClass::Unused, at + 3)?;
    test(guarded, FaultClass::Field, at + 5)?;
    test(owns, FaultClass::Count, at + 6)?;
    test(first, FaultClass::Disagreement, at)
}

// Bin i of those from base on.
fn bin_fault(t: &[u8], points: usize, base: usize, i: usize) -> Verdict
    requires { (base + 8 * i ≤ length t.now) × (length t.now ≤ 65536) }
    ensures { result ≡ verdict_of (read_bin t.now points base i (base + 8 * i)) }
{
    let at = base + 8 * i;
    let end = whole(t, at, 8)?;
    let bin = bin_at(t, at);
    if bin.form == 0 {
        if (bin.kind == 0) | (bin.kind == 2) {
            // Most bins are such, and none of them is a default. With one test inside the other the compiler leaves out rules that they decide.
            bin_rules(points, bin, true, at)?;
            return Ok(end);
        }
    }
    let first = first_default(t, base, i);
    bin_rules(points, bin, first, at)?;
    Ok(end)
}

// n bins from base on.
fn bins_fault(t: &[u8], points: usize, n: usize, base: usize) -> Verdict
    requires { (base ≤ length t.now) × (length t.now ≤ 65536) }
    ensures { result ≡ verdict_of (read_bin_heads t.now points n [] base) }
{
    for i in 0..n {
        bin_fault(t, points, base, i)?;
    }
    Ok(base + 8 * n)
}

// The section whose count stands at at; points is how many points there are.
pub fn bin_section(t: &[u8], points: usize, at: usize) -> Verdict
    requires { (at ≤ length t.now) × (length t.now ≤ 65536) }
    ensures { result ≡ verdict_of (read_bin_section t.now points at) }
{
    let base = section_count(t, 0, 512, at)?;
    bins_fault(t, points, read2(t, at) as usize, base)
}
