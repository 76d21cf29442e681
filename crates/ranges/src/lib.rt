// Ranges of the table's bytes: the tests on a record's i64 fields in a point's type; below, membership, the next value, how many values there are, and what ignore and illegal bins take.
#![tactic(auto)]

pub mod counts;
pub mod member;
pub mod next;
pub mod sizes;
pub mod taken;
pub mod types;

ghost use Rattle.std.specs.Prelude.{◌≡◌, ◌==◌, ◌+◌, ◌*◌, ◌≤◌, length};
ghost use Rattle.model.specs.Lists.{within};
ghost use Rattle.model.specs.Format.{byte, value_tests, pattern_tests, range_rules, range_tests, read_range, point_record, times};
ghost use Rattle.words.specs.Verdicts.{verdict_of, verdict_in};
ghost use Rattle.ranges.specs.Types.{typed, power_of, limits_of, value_at, lowest_of, Wide, end_tests, all_pass, span_in, spans_in, sound_spans};

use crate::types::PointType;
use words::bytes::{byte, inside, whole8};
use words::records::records;
use words::verdicts::{Fault, FaultClass, Verdict, test};

pub fn power(width: u8) -> u64
    requires { width ≤ 32 }
    ensures { (result ≡ power_of width) × (1 ≤ result) × (result ≤ 4294967296) }
{
    1 << width
}

// The value of an i64 field's bits, as the definitions number values: the value plus 2^31.
pub fn value_at(bits: u64) -> u64
    ensures { result ≡ value_at bits }
{
    std::num::wrapping_add_u64(bits, 2147483648)
}

// The type of the point whose record is at point.
pub fn type_at(t: &[u8], point: usize) -> PointType
    requires { (point ≤ 1000000000000) × Wide t.now point }
    ensures width { result.width ≡ byte t.now point }
    ensures signed { result.signed ≡ (byte t.now (point + 1) == 1) }
{
    PointType {
        width: byte(t, point),
        signed: byte(t, point + 1) == 1,
    }
}

// The lowest value of a type.
pub fn lowest(p: PointType) -> u64
    ensures { (result ≡ lowest_of p.width p.signed) × (result ≤ 2147483648) }
{
    if p.signed {
        2147483648 - power(p.width - 1)
    } else {
        2147483648
    }
}

// The lowest and the highest value of a type.
#[derive(Clone, Copy)]
struct Limits {
    low: u64,
    high: u64,
}

fn limits_of(p: PointType) -> Limits
    ensures { result ≡ limits_of p.width p.signed }
{
    let low = lowest(p);
    Limits {
        low,
        high: low + power(p.width) - 1,
    }
}

fn fits(l: Limits, v: u64) -> bool
    ensures { result ≡ within l.low l.high v }
{
    (l.low <= v) & (v <= l.high)
}

// The tests on the ends of a span.
#[derive(Clone, Copy)]
struct EndTests {
    first: bool,
    last: bool,
    ordered: bool,
}

fn end_tests(l: Limits, a: u64, b: u64) -> EndTests
    ensures { result ≡ end_tests l a b }
{
    let va = value_at(a);
    let vb = value_at(b);
    EndTests {
        first: fits(l, va),
        last: fits(l, vb),
        ordered: va <= vb,
    }
}

fn all_pass(e: EndTests) -> bool
    ensures { result ≡ all_pass e }
{
    e.first & e.last & e.ordered
}

// Two i64 fields from at on.
pub fn value_tests(p: PointType, a: u64, b: u64, at: usize) -> Result<(), Fault>
    requires { at ≤ 100000 }
    ensures { result ≡ verdict_in (value_tests (typed p.width p.signed) a b at) (Ok tt) }
{
    let e = end_tests(limits_of(p), a, b);
    test(e.first, FaultClass::Value, at)?;
    test(e.last, FaultClass::Value, at + 8)?;
    test(e.ordered, FaultClass::Value, at + 8)
}

fn pattern_tests(p: PointType, a: u64, b: u64, at: usize) -> Result<(), Fault>
    requires { at ≤ 100000 }
    ensures { result ≡ verdict_in (pattern_tests (typed p.width p.signed) a b at) (Ok tt) }
{
    let all = power(p.width);
    test(a < all, FaultClass::Value, at)?;
    test(b < all, FaultClass::Value, at + 8)?;
    test(a & b == a, FaultClass::Value, at + 8)
}

fn range_rules(
    p: PointType,
    patterns: bool,
    kind: u8,
    a: u64,
    b: u64,
    at: usize,
) -> Result<(), Fault>
    requires { at ≤ 65536 }
    ensures { result ≡ verdict_in (range_rules (typed p.width p.signed) patterns kind a b at) (Ok tt) }
{
    if kind == 0 {
        return value_tests(p, a, b, at + 1);
    }
    test((kind == 1) & patterns & !p.signed, FaultClass::Field, at)?;
    pattern_tests(p, a, b, at + 1)
}

// The tests of the range at at, which is whole, of a point of that type.
fn range_tests(t: &[u8], p: PointType, patterns: bool, at: usize) -> Result<(), Fault>
    requires { (at + 17 ≤ length t.now) × (length t.now ≤ 65536) }
    ensures { result ≡ verdict_in (range_tests t.now (typed p.width p.signed) patterns at) (Ok tt) }
{
    let kind = inside(t, at);
    let a = whole8(t, at + 1);
    let b = whole8(t, at + 9);
    range_rules(p, patterns, kind, a, b, at)
}

// Whether the range at at is a span that passes its tests.
fn span_in(t: &[u8], l: Limits, at: usize) -> bool
    requires { (at + 17 ≤ length t.now) × (length t.now ≤ 65536) }
    ensures { result ≡ span_in t.now l at }
{
    let kind = inside(t, at);
    let a = whole8(t, at + 1);
    let b = whole8(t, at + 9);
    let ends = all_pass(end_tests(l, a, b));
    (kind == 0) & ends
}

// Whether n ranges from start on are.
fn spans_in(t: &[u8], l: Limits, n: usize, start: usize) -> bool
    requires { (start + 17 * n ≤ length t.now) × (length t.now ≤ 65536) }
    ensures { result ≡ spans_in t.now l n start }
{
    let mut at = start;
    for i in 0..n {
        if !span_in(t, l, at) {
            return false;
        }
        at += 17;
    }
    true
}

// Whether n ranges from start on are whole, and spans of the point whose record is at point: most ranges are, and need no more tests.
pub fn sound_spans(t: &[u8], point: usize, n: usize, start: usize) -> bool
    requires { (start ≤ 65536) × (n ≤ 65535) × (point + 2 ≤ length t.now) × (length t.now ≤ 65536) × Wide t.now point }
    ensures { result ≡ sound_spans t.now point n start }
{
    if t.len() < start + 17 * n {
        return false;
    }
    let p = PointType {
        width: inside(t, point),
        signed: inside(t, point + 1) == 1,
    };
    spans_in(t, limits_of(p), n, start)
}

// n ranges from start on, of the point whose record is at point.
pub fn ranges_of(t: &[u8], point: usize, patterns: bool, n: usize, start: usize) -> Verdict
    requires { (start ≤ length t.now) × (point ≤ 65536) × (length t.now ≤ 65536) × Wide t.now point }
    ensures { result ≡ verdict_of (times n (read_range t.now (point_record t.now point) patterns) start) }
{
    let p = type_at(t, point);
    records(t, 17, n, start, |at| range_tests(t, p, patterns, at))
}
