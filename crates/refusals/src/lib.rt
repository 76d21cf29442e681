// The tests of a call, in order: the first that fails refuses it.
#![tactic(auto)]

pub mod refusal;

ghost use Rattle.std.specs.Prelude.{◌≡◌, ◌+◌, ◌-◌, ◌^◌, ◌<◌, ◌≤◌, ltb, length, take, drop, IfOk};
ghost use Rattle.model.specs.Lists.{all};
ghost use Rattle.model.specs.Register.{samples_of, reset, start, ask_counter, ask_unknown};
ghost use Rattle.table.specs.Check.{Few};
ghost use Rattle.refusals.specs.Numbers.{number_in, tested};
ghost use Rattle.refusals.specs.Refusals.{at_most, consistent_at, in_width_at, in_widths_at, own_refusal, RegisterRefusal, PartRefusal, ItemRefusal, CallRefusal};

use crate::refusal::Refusal;
use table::answer::Facts;
use values::fields::word;
use words::bytes::byte;

// The words 2 to end - 1 are at most the sample word.
fn counts_hold(register: &[u32], end: usize) -> bool
    requires { (2 ≤ end) × (end ≤ length register.now) }
    ensures { result ≡ all (at_most (samples_of register.now)) (take (end - 2) (drop 2 register.now)) }
{
    let samples = register[1];
    for i in 2..end {
        if samples < register[i] {
            return false;
        }
    }
    true
}

// The flag is 0 or 1, and no count is above the sample word: n counts.
fn consistent(register: &[u32], n: usize) -> bool
    requires { 2 + n ≤ length register.now }
    ensures { result ≡ consistent_at n register.now }
{
    let flag = register[0];
    let hold = counts_hold(register, 2 + n);
    (flag <= 1) & hold
}

// Too short for the table, or not consistent.
pub fn test_register(register: &[u32], f: Facts) -> Result<(), Refusal>
    requires { Few f }
    ensures { RegisterRefusal f register.now result }
{
    let n = f.counters + f.points;
    if register.len() < 2 + n + f.runs {
        return Err(Refusal::Short);
    }
    if !consistent(register, n) {
        return Err(Refusal::Inconsistent);
    }
    Ok(())
}

// Then: there is no part i, of the table's n.
fn test_part(register: &[u32], i: usize, n: usize, f: Facts) -> Result<(), Refusal>
    requires { Few f }
    ensures { PartRefusal f register.now i n result }
{
    test_register(register, f)?;
    if i < n { Ok(()) } else { Err(Refusal::NoPart) }
}

pub fn test_item(register: &[u32], item: usize, items: usize, f: Facts) -> Result<(), Refusal>
    requires { Few f }
    ensures { ItemRefusal f register.now item items result }
{
    test_part(register, item, items, f)
}

// No bit of x stands above the width.
fn in_width(x: u32, width: u8) -> bool
    ensures { result ≡ ltb x (2 ^ width) }
{
    if 32 <= width {
        return true;
    }
    (x as u64) < ranges::power(width)
}

// Point p's value and unknown bits.
fn point_in_width(t: &[u8], sample: &[u32], p: usize) -> bool
    requires { p < 65536 }
    ensures { result ≡ in_width_at t.now sample.now p }
{
    let width = byte(t, 2 + 11 * p);
    let value = word(sample, 4 + 2 * p);
    let unknown = word(sample, 5 + 2 * p);
    in_width(value, width) & in_width(unknown, width)
}

fn in_widths(t: &[u8], sample: &[u32], points: usize) -> bool
    requires { points < 65536 }
    ensures { result ≡ in_widths_at t.now sample.now points }
{
    for p in 0..points {
        if !point_in_width(t, sample, p) {
            return false;
        }
    }
    true
}

// One test.
fn test(ok: bool, refusal: Refusal) -> Result<(), Refusal>
    ensures { result ≡ tested ok refusal }
{
    if ok { Ok(()) } else { Err(refusal) }
}

// The sample's own tests, for a register with this flag and so many samples. points and illegals are the table's.
pub fn test_sample(
    t: &[u8],
    sample: &[u32],
    report: &[u32],
    flag: u32,
    samples: u32,
    points: usize,
    illegals: usize,
) -> Result<(), Refusal>
    requires { points < 65536 }
    ensures { number_in result ≡ own_refusal t.now points illegals sample.now report.now flag samples }
{
    test(sample.len() == 4 + 2 * points, Refusal::Length)?;
    test(in_widths(t, sample, points), Refusal::Width)?;
    test(illegals <= report.len(), Refusal::Report)?;
    test(flag == 1, Refusal::Stopped)?;
    test(samples < 4294967295, Refusal::Full)
}

// A reset needs words enough.
pub fn test_reset(register: &[u32], f: Facts) -> Result<(), Refusal>
    requires { Few f }
    ensures { CallRefusal f register.now reset result }
{
    let words = 2 + f.counters + f.points + f.runs;
    if register.len() < words {
        return Err(Refusal::Short);
    }
    Ok(())
}

// A start, and a stop.
pub fn test_start(register: &[u32], f: Facts) -> Result<(), Refusal>
    requires { Few f }
    ensures { CallRefusal f register.now start result }
{
    test_register(register, f)
}

pub fn test_counter(register: &[u32], place: usize, f: Facts) -> Result<(), Refusal>
    requires { Few f }
    ensures call_refusal { CallRefusal f register.now (ask_counter place) result }
    ensures place_lt_counters { IfOk result (λ _. place < f.counters) }
{
    test_part(register, place, f.counters, f)
}

pub fn test_unknown(register: &[u32], point: usize, f: Facts) -> Result<(), Refusal>
    requires { Few f }
    ensures call_refusal { CallRefusal f register.now (ask_unknown point) result }
    ensures point_lt_points { IfOk result (λ _. point < f.points) }
{
    test_part(register, point, f.points, f)
}
