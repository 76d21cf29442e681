// Counts of sections.
ghost use Rattle.std.specs.Prelude.{◌≡◌, ◌≤◌, length};
ghost use Rattle.model.specs.Format.{section_count, owned_count};
ghost use Rattle.words.specs.Verdicts.{verdict_of};

use crate::bytes::whole2;
use crate::verdicts::{FaultClass, Verdict, test, whole};

pub fn section_count(t: &[u8], lo: u16, hi: u16, at: usize) -> Verdict
    requires { (at ≤ length t.now) × (length t.now ≤ 65536) }
    ensures { result ≡ verdict_of (section_count t.now lo hi at) }
{
    let end = whole(t, at, 2)?;
    let n = whole2(t, at);
    test((lo <= n) & (n <= hi), FaultClass::Count, at)?;
    Ok(end)
}

pub fn owned_count(t: &[u8], hi: u16, sum: usize, at: usize) -> Verdict
    requires { (at ≤ length t.now) × (length t.now ≤ 65536) }
    ensures { result ≡ verdict_of (owned_count t.now hi sum at) }
{
    let end = whole(t, at, 2)?;
    let n = whole2(t, at);
    test(n <= hi, FaultClass::Count, at)?;
    test(n as usize == sum, FaultClass::Disagreement, at)?;
    Ok(end)
}
