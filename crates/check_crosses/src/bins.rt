// Section 9: cross bins.
#![tactic(auto, unfolding(words::specs::Verdicts::verdict_of, words::specs::Verdicts::verdict_in, model::specs::Format::read_record, model::specs::Format::tested, model::specs::Format::read_cross_bin))]

ghost use Rattle.std.specs.Prelude.{◌≡◌, [], ◌+◌, ◌*◌, ◌≤◌, length};
ghost use Rattle.model.specs.Format.{byte, cross_head, cross_bins_owned, cross_bin_head, tokens_of, read_cross_bin, times, read_cross_bin_section};
ghost use Rattle.model.specs.Raw.{rows};
ghost use Rattle.words.specs.Verdicts.{verdict_of};
ghost use Rattle.words.specs.Sums.{sum_from};

use layout::Section;
use words::bytes::inside;
use words::counts::owned_count;
use words::guards::bin_guard_ok;
use words::sums::sum_bytes;
use words::verdicts::{FaultClass, Verdict, test, whole};

// The tests on a cross bin's record are those of any cross's.
fn cross_bin(t: &[u8], at: usize) -> Verdict
    requires { (at ≤ length t.now) × (length t.now ≤ 65536) }
    ensures { result ≡ verdict_of (read_cross_bin t.now [] at) }
{
    let end = whole(t, at, 3)?;
    // The kind stays the byte, which is what is tested: above 2 it is refused.
    let kind = inside(t, at);
    let guard = inside(t, at + 1);
    let tokens = inside(t, at + 2);
    let kinds = kind <= 2;
    let guarded = bin_guard_ok(kind, guard);
    let some = (1..=32).contains(&tokens);
    if kinds & guarded & some {
        return Ok(end);
    }
    test(kinds, FaultClass::Field, at)?;
    test(guarded, FaultClass::Field, at + 1)?;
    test(some, FaultClass::Count, at + 2)?;
    Ok(end)
}

// n cross bins from start on.
fn cross_bins(t: &[u8], n: usize, start: usize) -> Verdict
    requires { (start ≤ length t.now) × (length t.now ≤ 65536) }
    ensures { result ≡ verdict_of (times n (read_cross_bin t.now []) start) }
{
    let mut at = start;
    for i in 0..n {
        at = cross_bin(t, at)?;
    }
    Ok(at)
}

// The cross bins that these crosses own.
pub fn owned_bins(t: &[u8], crosses: Section) -> usize
    requires { (crosses.at + 13 * crosses.count ≤ length t.now) × (length t.now ≤ 65536) }
    ensures { (result ≡ sum_from 0 cross_bins_owned (cross_head t.now) 13 crosses.at crosses.count) × (result ≤ 255 * crosses.count) }
{
    sum_bytes(t, 13, crosses.at + 12, crosses.count)
}

// The tokens that these cross bins own.
pub fn owned_tokens(t: &[u8], bins: Section) -> usize
    requires { (bins.at ≤ 65536) × (bins.count ≤ 2000000) }
    ensures { result ≡ sum_from 0 tokens_of (cross_bin_head t.now []) 3 bins.at bins.count }
{
    sum_bytes(t, 3, bins.at + 2, bins.count)
}

// Section 9, at at, after these crosses.
pub fn cross_bin_section(t: &[u8], crosses: Section, at: usize) -> Verdict
    requires { (at ≤ length t.now) × (length t.now ≤ 65536) × (crosses.at + 13 * crosses.count ≤ length t.now) }
    ensures { result ≡ verdict_of (read_cross_bin_section t.now (rows (cross_head t.now) 13 crosses.at crosses.count) at) }
{
    let sum = owned_bins(t, crosses);
    let start = owned_count(t, 128, sum, at)?;
    cross_bins(t, sum, start)
}
