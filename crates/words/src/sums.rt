// Sums over records in a row: what owners own together.
ghost use Rattle.std.specs.Prelude.{◌≡◌, ℕ, ◌*◌, ◌^◌, ◌≤◌, ◌<◌};
ghost use Rattle.words.specs.Sums.{byte_sum, sum_from, here};

use crate::bytes::byte;

// The sum of n terms by their places, which stand in a row, size apart.
pub fn sum_at<F: Fn(usize) -> usize>(start: usize, size: usize, n: usize, term: F) -> usize
    requires start_bound { (start ≤ 1099511627776) × (size ≤ 20) × (n ≤ 10000000000) }
    requires callable { F.IsAlwaysCallable term }
    requires small { (at y : ℕ) → at < 2 ^ 64 → F.post term at y → y ≤ 255 }
    ensures value { (f : ℕ → ℕ) → ((at y : ℕ) → at < 2 ^ 64 → F.post term at y → y ≡ f at) → result ≡ sum_from 0 f here size start n }
    ensures bound { result ≤ 255 * n }
{
    let mut sum: usize = 0;
    let mut at = start;
    for i in 0..n {
        sum += term(at);
        at += size;
    }
    sum
}

// The byte at start, and the one of each record of size bytes after it: n bytes.
pub fn sum_bytes(t: &[u8], size: usize, start: usize, n: usize) -> usize
    requires { (size ≤ 13) × (start ≤ 1000000000000) × (n ≤ 10000000000) }
    ensures { (result ≡ byte_sum t.now size start n) × (result ≤ 255 * n) }
{
    sum_at(start, size, n, |at| usize::from(byte(t, at)))
}
