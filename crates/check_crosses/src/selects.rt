// Section 10: the select tokens, cross bin by cross bin.
ghost use Rattle.std.specs.Prelude.{◌≡◌, ◌+◌, ◌*◌, ◌≤◌, length};
ghost use Rattle.model.specs.Format.{bin_head, cross_points, cross_bin_head, each, read_select, read_selects, read_token_section};
ghost use Rattle.model.specs.Raw.{rows, points_at, cross_bin_heads_at, cross_heads_at};
ghost use Rattle.words.specs.Verdicts.{verdict_of};
ghost use Rattle.ranges.specs.Types.{AllWide};
ghost use Rattle.check_tokens.specs.Tokens.{CrossOk};
ghost use Rattle.check_crosses.specs.Crosses.{CrossesOk};

use crate::bins::{owned_bins, owned_tokens};
use check_tokens::expressions::one_expression;
use check_tokens::tokens::tokens;
use layout::Section;
use words::bytes::byte;
use words::counts::owned_count;
use words::verdicts::{FaultClass, Verdict, test};

// The tokens from at on of the cross bin at b, of the cross at c, in a table with these sections of points and of value bins.
fn select(t: &[u8], points: Section, bins: Section, c: usize, b: usize, at: usize) -> Verdict
    requires at_in_bounds { (at ≤ length t.now) × (length t.now ≤ 65536) × (points.at + 11 * points.count ≤ length t.now) × (bins.at ≤ 65536) × (c ≤ 65536) × (b ≤ 10000000) }
    requires all_wide { AllWide t.now points.at points.count × CrossOk t.now points.count c }
    ensures { result ≡ verdict_of (read_select t.now (points_at t.now points.at points.count) (rows (bin_head t.now) 8 bins.at bins.count) (cross_bin_head t.now (cross_points t.now c) b) at) }
{
    let n = byte(t, b + 2) as usize;
    let end = tokens(t, points, bins, c, n, at)?;
    let one = one_expression(t, n, at);
    // At fault is the last token.
    test(one, FaultClass::Disagreement, end.saturating_sub(20))?;
    Ok(end)
}

// The tokens of the cross bins that the cross at c owns.
fn selects(
    t: &[u8],
    points: Section,
    bins: Section,
    c: usize,
    owned: Section,
    start: usize,
) -> Verdict
    requires start_in_bounds { (start ≤ length t.now) × (length t.now ≤ 65536) × (points.at + 11 * points.count ≤ length t.now) × (bins.at ≤ 65536) × (c ≤ 65536) × (owned.at ≤ 9000000) × (owned.count ≤ 255) }
    requires all_wide { AllWide t.now points.at points.count × CrossOk t.now points.count c }
    ensures { result ≡ verdict_of (each (read_select t.now (points_at t.now points.at points.count) (rows (bin_head t.now) 8 bins.at bins.count)) (cross_bin_heads_at t.now c owned.at owned.count) start) }
{
    let mut at = start;
    let mut bin = owned.at;
    for i in 0..owned.count {
        at = select(t, points, bins, c, bin, at)?;
        bin += 3;
    }
    Ok(at)
}

// The tokens of all bins of these crosses, the first bin at b.
fn all_selects(
    t: &[u8],
    points: Section,
    bins: Section,
    crosses: Section,
    b: usize,
    start: usize,
) -> Verdict
    requires start_in_bounds { (start ≤ length t.now) × (length t.now ≤ 65536) × (points.at + 11 * points.count ≤ length t.now) × (bins.at ≤ 65536) × (crosses.at + 13 * crosses.count ≤ length t.now) × (b ≤ length t.now) }
    requires all_wide { AllWide t.now points.at points.count × CrossesOk t.now points.count crosses.at crosses.count }
    ensures { result ≡ verdict_of (each (read_selects t.now (points_at t.now points.at points.count) (rows (bin_head t.now) 8 bins.at bins.count)) (cross_heads_at t.now crosses.at b crosses.count) start) }
{
    let mut at = start;
    let mut cross = crosses.at;
    let mut bin = b;
    for i in 0..crosses.count {
        let owned = Section {
            at: bin,
            count: byte(t, cross + 12) as usize,
        };
        at = selects(t, points, bins, cross, owned, at)?;
        cross += 13;
        bin += 3 * owned.count;
    }
    Ok(at)
}

// Section 10, at at, after these points, value bins and crosses. b: the place of the first cross bin.
pub fn token_section(
    t: &[u8],
    points: Section,
    bins: Section,
    crosses: Section,
    b: usize,
    at: usize,
) -> Verdict
    requires at_in_bounds { (at ≤ length t.now) × (length t.now ≤ 65536) × (points.at + 11 * points.count ≤ length t.now) × (bins.at + 8 * bins.count ≤ length t.now) × (crosses.at + 13 * crosses.count ≤ length t.now) × (b ≤ length t.now) }
    requires all_wide { AllWide t.now points.at points.count × CrossesOk t.now points.count crosses.at crosses.count }
    ensures { result ≡ verdict_of (read_token_section t.now (points_at t.now points.at points.count) (rows (bin_head t.now) 8 bins.at bins.count) (cross_heads_at t.now crosses.at b crosses.count) at) }
{
    let owned = Section {
        at: b,
        count: owned_bins(t, crosses),
    };
    let sum = owned_tokens(t, owned);
    let start = owned_count(t, 1024, sum, at)?;
    all_selects(t, points, bins, crosses, b, start)
}
