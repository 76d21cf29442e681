// Records of one size in a row.
ghost use Rattle.std.specs.Prelude.{ℕ, ◌+◌, ◌≤◌, length};
ghost use Rattle.words.specs.Records.{RecordsOf};

use crate::verdicts::{Fault, Verdict, whole};

// n records of size bytes from start on: each is whole and passes its tests.
pub fn records<F: Fn(usize) -> Result<(), Fault>>(
    t: &[u8],
    size: usize,
    n: usize,
    start: usize,
    tests: F,
) -> Verdict
    requires bounds { (start ≤ length t.now) × (length t.now ≤ 65536) × (size ≤ 65536) }
    requires callable { (at : ℕ) → at + size ≤ length t.now → F.pre tests at }
    ensures { RecordsOf (F.post tests) t.now size n start result }
{
    let mut at = start;
    for i in 0..n {
        let end = whole(t, at, size)?;
        tests(at)?;
        at = end;
    }
    Ok(at)
}
