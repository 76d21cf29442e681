// How many bins a cover bin stands for, and how many values each of them gets at least.
ghost use Rattle.std.specs.Prelude.{◌≡◌, ◌+◌, ◌/◌, ◌≤◌, max};
ghost use Rattle.model.specs.Format.{byte};
ghost use Rattle.model.specs.Raw.{bin_at};
ghost use Rattle.values.specs.Counts.{cover_count};

use ranges::counts::value_count;
use words::bytes::{byte, read2};

// How many bins the cover bin at b stands for, its ranges from r on, where it is not one bin (form 0); 257 if there are more. low: the lowest value of its type.
pub fn several_count(t: &[u8], b: usize, r: usize, low: u64) -> usize
    requires { (b ≤ 2000000000) × (r ≤ 2000000000) × (low ≤ 8589934592) × (byte t.now (b + 2) ≡ 0 → ⊥) }
    ensures { (result ≡ cover_count low (bin_at t.now b r).form (bin_at t.now b r).ranges) × (result ≤ 65535) }
{
    let form = byte(t, b + 2);
    if form == 1 {
        let k = read2(t, b + 6);
        return value_count(t, r, k as usize, low);
    }
    let number = read2(t, b + 3);
    number as usize
}

// How many of some values each of number bins gets at least.
pub fn share_of(all: u64, number: usize) -> u64
    requires { 1 ≤ number }
    ensures { (result ≡ max 1 (all / number)) × (1 ≤ result) }
{
    (all / (number as u64)).max(1)
}
