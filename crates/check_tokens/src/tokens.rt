// Section 10: the records of select tokens.
#![tactic(auto, unfolding(words::specs::Verdicts::verdict_of, words::specs::Verdicts::verdict_in, model::specs::Format::read_record, model::specs::Format::tested, model::specs::Format::token_rules, model::specs::Format::read_token, crate::specs::Tokens::name_fields, crate::specs::Tokens::value_fields))]

ghost use Rattle.std.specs.Prelude.{◌≡◌, [], ◌∷◌, Ok, cond, ◌+◌, ◌*◌, ◌≤◌, leb, ltb, eqb, length, get_or};
ghost use Rattle.model.specs.Format.{point_record, bin_head, cross_points, cover_bin_of, field, unused, token_rules, read_token, times};
ghost use Rattle.model.specs.Raw.{rows, points_at};
ghost use Rattle.words.specs.Verdicts.{verdict_of, verdict_in};
ghost use Rattle.ranges.specs.Types.{Wide, AllWide};
ghost use Rattle.check_tokens.specs.Tokens.{CrossOk, token_at, name_fields, value_fields};

use layout::Section;
use ranges::{type_at, value_tests};
use words::bytes::{byte, inside, whole2, whole8};
use words::choices::pick;
use words::kinds::Kind;
use words::verdicts::{Fault, FaultClass, Verdict, test, whole};

// The point at a position of the cross at c; 0 past its points.
fn point_of(t: &[u8], c: usize, position: u8) -> usize
    requires { c ≤ 65536 }
    ensures { result ≡ get_or (cross_points t.now c) position 0 }
{
    let n = byte(t, c);
    let i = position as usize;
    let p = byte(t, c + 1 + i) as usize;
    if position < n { p } else { 0 }
}

// Whether a table with this section of value bins has a b-th of them, and it is a cover bin of point p.
fn cover_bin(t: &[u8], bins: Section, p: usize, b: usize) -> bool
    requires { (bins.at ≤ 65536) × (b ≤ 65536) }
    ensures { result ≡ cover_bin_of (rows (bin_head t.now) 8 bins.at bins.count) p b }
{
    let at = bins.at + 8 * b;
    let point = byte(t, at) as usize;
    let kind = Kind::from(byte(t, at + 1));
    (b < bins.count) & (kind == Kind::Cover) & (point == p)
}

// The fields of a token. op stays the table's byte: `op <= 2` says leaf in less than a match, and any byte may stand there.
#[derive(Clone, Copy)]
struct Token {
    op: u8,
    position: u8,
    bin: u16,
    lo: u64,
    hi: u64,
}

fn token_at(t: &[u8], at: usize) -> Token
    requires { (at + 20 ≤ length t.now) × (length t.now ≤ 65536) }
    ensures { result ≡ token_at t.now at }
{
    Token {
        op: inside(t, at),
        position: inside(t, at + 1),
        bin: whole2(t, at + 2),
        lo: whole8(t, at + 4),
        hi: whole8(t, at + 12),
    }
}

// The position: one of the cross's where op is 0, 1 or 2, else unused.
fn position_field(parts: u8, token: Token, at: usize) -> Result<(), Fault>
    requires { at ≤ 65536 }
    ensures { result ≡ verdict_in (cond (leb token.op 2) (ltb token.position parts, field, at + 1) (eqb token.position 0, unused, at + 1) ∷ []) (Ok tt) }
{
    if token.op <= 2 {
        return test(token.position < parts, FaultClass::Field, at + 1);
    }
    test(token.position == 0, FaultClass::Unused, at + 1)
}

// op, position and bin. Sound ones pass at once.
fn name_fields(parts: u8, token: Token, at: usize) -> Result<(), Fault>
    requires { at ≤ 65536 }
    ensures { result ≡ verdict_in (name_fields parts token.op token.position token.bin at) (Ok tt) }
{
    let known = token.op <= 5;
    let placed = pick(token.op <= 2, token.position < parts, token.position == 0);
    let plain = (token.op == 1) | (token.bin == 0);
    if known & placed & plain {
        return Ok(());
    }
    test(known, FaultClass::Field, at)?;
    position_field(parts, token, at)?;
    test(plain, FaultClass::Unused, at + 2)
}

// lo and hi: values of the point whose record is at point where op is 2, else unused.
fn value_fields(t: &[u8], point: usize, token: Token, at: usize) -> Result<(), Fault>
    requires { (point ≤ 65536) × (at ≤ 65536) × Wide t.now point }
    ensures { result ≡ verdict_in (value_fields (point_record t.now point) token.op token.lo token.hi at) (Ok tt) }
{
    if token.op == 2 {
        return value_tests(type_at(t, point), token.lo, token.hi, at + 4);
    }
    let no_lo = token.lo == 0;
    let no_hi = token.hi == 0;
    if no_lo & no_hi {
        return Ok(());
    }
    test(no_lo, FaultClass::Unused, at + 4)?;
    test(no_hi, FaultClass::Unused, at + 12)
}

// The tests on a token at at, of a cross with so many points. p is the point at its position, whose record is at point.
fn token_rules(
    t: &[u8],
    bins: Section,
    parts: u8,
    p: usize,
    point: usize,
    token: Token,
    at: usize,
) -> Result<(), Fault>
    requires { (bins.at ≤ 65536) × (point ≤ 65536) × (at ≤ 65536) × Wide t.now point }
    ensures { result ≡ verdict_in (token_rules parts (point_record t.now point) token.op token.position token.bin token.lo token.hi (cover_bin_of (rows (bin_head t.now) 8 bins.at bins.count) p token.bin) at) (Ok tt) }
{
    name_fields(parts, token, at)?;
    value_fields(t, point, token, at)?;
    let named = (token.op != 1) || cover_bin(t, bins, p, token.bin as usize);
    test(named, FaultClass::Disagreement, at)
}

// The token at at, of the cross at c, in a table with these sections of points and of value bins.
fn token_fault(t: &[u8], points: Section, bins: Section, c: usize, at: usize) -> Verdict
    requires at_in_bounds { (at ≤ length t.now) × (length t.now ≤ 65536) × (points.at + 11 * points.count ≤ length t.now) × (bins.at ≤ 65536) × (c ≤ 65536) }
    requires all_wide { AllWide t.now points.at points.count × CrossOk t.now points.count c }
    ensures { result ≡ verdict_of (read_token t.now (points_at t.now points.at points.count) (rows (bin_head t.now) 8 bins.at bins.count) (cross_points t.now c) at) }
{
    let end = whole(t, at, 20)?;
    let parts = byte(t, c);
    let token = token_at(t, at);
    let p = point_of(t, c, token.position);
    token_rules(t, bins, parts, p, points.at + 11 * p, token, at)?;
    Ok(end)
}

// n such tokens from start on.
pub fn tokens(t: &[u8], points: Section, bins: Section, c: usize, n: usize, start: usize) -> Verdict
    requires start_in_bounds { (start ≤ length t.now) × (length t.now ≤ 65536) × (points.at + 11 * points.count ≤ length t.now) × (bins.at ≤ 65536) × (c ≤ 65536) }
    requires all_wide { AllWide t.now points.at points.count × CrossOk t.now points.count c }
    ensures { result ≡ verdict_of (times n (read_token t.now (points_at t.now points.at points.count) (rows (bin_head t.now) 8 bins.at bins.count) (cross_points t.now c)) start) }
{
    let mut at = start;
    for i in 0..n {
        at = token_fault(t, points, bins, c, at)?;
    }
    Ok(at)
}
