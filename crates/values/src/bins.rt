// The value bins of a table: which list a value.
ghost use Rattle.std.specs.Prelude.{◌≡◌, ◌<◌, ◌≤◌};
ghost use Rattle.model.specs.Raw.{bins_at};
ghost use Rattle.values.specs.Listed.{listed_in, first_listing};

use ranges::member::in_range;
use words::bytes::{byte, read2};
use words::choices::pick;

// The number of the first bin of the point that lists the value, or n. (Document 01 names this form: loops left by a label, with the bin's place.)
pub fn first_listing(t: &[u8], a: usize, r: usize, n: usize, p: u8, v: u64) -> usize
    requires { (a < 1000000000) × (r < 1000000000) × (n ≤ 512) }
    ensures { result ≡ first_listing p v 0 (bins_at t.now a r n) }
{
    let mut at = r;
    let mut bin = 0;
    let place = 'bins: loop {
        if n <= bin {
            break bin;
        }
        let here = a + 8 * bin;
        let q = byte(t, here);
        let k = read2(t, here + 6);
        // None of another point's.
        let m = pick(q == p, k as usize, 0);
        for j in 0..m {
            if in_range(t, at + 17 * j, v) {
                break 'bins bin;
            }
        }
        at += 17 * (k as usize);
        bin += 1;
    };
    place
}

// Some bin of the point lists the value.
pub fn listed(t: &[u8], a: usize, r: usize, n: usize, p: u8, v: u64) -> bool
    requires { (a < 1000000000) × (r < 1000000000) × (n ≤ 512) }
    ensures { result ≡ listed_in p v (bins_at t.now a r n) }
{
    first_listing(t, a, r, n, p, v) < n
}
