// How many bins are of a kind, and the run words of transition bins.
ghost use Rattle.std.specs.Prelude.{◌≡◌, ◌+◌, ◌*◌, ◌≤◌};
ghost use Rattle.layout.specs.Places.{Small};
ghost use Rattle.words.specs.Kinds.{byte_of};
ghost use Rattle.limits.specs.Walks.{walk_sum, after, is_byte, cross_kinds, next_cross, mosts_in, next_transition};

use layout::Layout;
use words::bytes::byte;
use words::kinds::Kind;
use words::sums::{sum_at, sum_bytes};

// How many of n bins are of a kind; the bytes that say it stand size apart, from start on.
pub fn count_kind(t: &[u8], start: usize, size: usize, n: usize, kind: Kind) -> usize
    requires { (start ≤ 1099511627776) × (size ≤ 20) × (n ≤ 1048576) }
    ensures { (result ≡ walk_sum 0 (is_byte t.now (byte_of kind)) (after size) start n) × (result ≤ 255 * n) }
{
    let v = u8::from(kind);
    sum_at(start, size, n, |at| usize::from(byte(t, at) == v))
}

// How many bins of all crosses are of a kind.
pub fn cross_kinds(t: &[u8], l: Layout, kind: Kind) -> usize
    requires { Small l }
    ensures { (result ≡ walk_sum 0 (cross_kinds t.now (byte_of kind)) (next_cross t.now) (l.crosses, l.cross_bins) l.cross_count) × (result ≤ 65025 * l.cross_count) }
{
    let mut sum: usize = 0;
    let mut c = l.crosses;
    let mut b = l.cross_bins;
    for i in 0..l.cross_count {
        let k = usize::from(byte(t, c + 12));
        let found = count_kind(t, b, 3, k, kind);
        sum += found;
        c += 13;
        b += 3 * k;
    }
    sum
}

// The mosts of all steps of the transition bins together.
pub fn mosts(t: &[u8], l: Layout) -> usize
    requires { Small l }
    ensures { (result ≡ walk_sum 0 (mosts_in t.now) (next_transition t.now) (l.transitions, l.sequences, l.steps) l.transition_count) × (result ≤ 16581375 * l.transition_count) }
{
    let mut sum: usize = 0;
    let mut b = l.transitions;
    let mut q = l.sequences;
    let mut p = l.steps;
    for i in 0..l.transition_count {
        let m = usize::from(byte(t, b + 3));
        let k = sum_bytes(t, 1, q, m);
        let found = sum_bytes(t, 3, p + 2, k);
        sum += found;
        b += 4;
        q += m;
        p += 3 * k;
    }
    sum
}
