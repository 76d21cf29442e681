// The flags of a point's transition bins. Each bin's matched lengths are the bits of a word.
ghost use Rattle.std.specs.Prelude.{◌≡◌, cond, not, ◌||◌, ◌<◌, ◌≤◌, ◌+◌, eqb, length};
ghost use Rattle.std.specs.Int.Bits.{bit_or};
ghost use Rattle.model.specs.Sampling.{is_skipped};
ghost use Rattle.arrays.specs.Put.{put};
ghost use Rattle.arrays.specs.Flat.{reading_from};
ghost use Rattle.points.specs.Transitions.{lost_with, lost_lengths, flags_of, flags_from, transition_flags};

use crate::readings::PointReading;
use arrays::put_one;
use layout::Layout;
use values::fields::guard_true;
use words::bytes::byte;
use words::kinds::Kind;

// The lengths x of the bin at at, taken away from the point's cover bins, with those taken before.
fn lost_with(t: &[u8], p: u8, at: usize, before: u32, x: u32) -> u32
    requires { at < 2000000000 }
    ensures { result ≡ lost_with t.now p at before x }
{
    let q = byte(t, at);
    let kind = Kind::from(byte(t, at + 1));
    if (q == p) & kind.excludes() {
        before | x
    } else {
        before
    }
}

// The lengths that ignore and illegal bins of the point take away: n bins from b on.
fn lost_lengths(t: &[u8], p: u8, b: usize, n: usize, lens: &[u32]) -> u32
    requires { (b < 1000000000) × (n ≤ 64) × (n ≤ length lens.now) }
    ensures { result ≡ lost_lengths t.now lens.now p b 0 n 0 }
{
    let mut lost: u32 = 0;
    for i in 0..n {
        let x = lens[i];
        lost = lost_with(t, p, b + 4 * i, lost, x);
    }
    lost
}

// A bin of the kind has a counter.
fn counted(kind: u8) -> bool
    ensures { result ≡ (eqb kind 0 || eqb kind 2) }
{
    matches!(Kind::from(kind), Kind::Cover | Kind::Illegal)
}

// A cover bin has a length that is not lost; an illegal bin has a length.
fn matched(kind: u8, lost: u32, x: u32) -> bool
    ensures { result ≡ cond (eqb kind 0) (not (eqb (bit_or x lost) lost)) (not (eqb x 0)) }
{
    match Kind::from(kind) {
        Kind::Cover => (x | lost) != lost,
        _ => x != 0,
    }
}

// What keeps a point's transition bins from being hit: its reading is skipped; its ignore and illegal bins take these lengths away.
#[derive(Clone, Copy)]
struct Exclusion {
    point: u8,
    skip: bool,
    lost: u32,
}

// The bin at at, where it is one of the point.
fn put_transition(
    flags: &mut [u8],
    cur: usize,
    t: &[u8],
    sample: &[u32],
    e: Exclusion,
    at: usize,
    x: u32,
) -> usize
    requires { (at < 2000000000) × (cur + length (flags_of t.now sample.now e.point e.skip e.lost at x) ≤ length flags.old) }
    ensures { (result ≡ cur + length (flags_of t.now sample.now e.point e.skip e.lost at x)) × (flags.new ≡ put cur (flags_of t.now sample.now e.point e.skip e.lost at x) flags.old) }
{
    let q = byte(t, at);
    if q != e.point {
        return cur;
    }
    let kind = byte(t, at + 1);
    if !counted(kind) {
        return cur;
    }
    let g = byte(t, at + 2);
    let y = guard_true(sample, g);
    let h = matched(kind, e.lost, x);
    put_one(flags, cur, y & !e.skip & h)
}

// The transition bins of the point, in a table with that layout.
fn put_bins(
    flags: &mut [u8],
    cur: usize,
    t: &[u8],
    l: Layout,
    sample: &[u32],
    lens: &[u32],
    e: Exclusion,
) -> usize
    requires { (l.transitions < 1000000000) × (l.transition_count ≤ 64) × (l.transition_count ≤ length lens.now) × (cur + length (flags_from t.now sample.now lens.now e.point e.skip e.lost l.transitions 0 l.transition_count) ≤ length flags.old) }
    ensures { (result ≡ cur + length (flags_from t.now sample.now lens.now e.point e.skip e.lost l.transitions 0 l.transition_count)) × (flags.new ≡ put cur (flags_from t.now sample.now lens.now e.point e.skip e.lost l.transitions 0 l.transition_count) flags.old) }
{
    let b = l.transitions;
    let n = l.transition_count;
    let mut c = cur;
    for i in 0..n {
        let x = lens[i];
        c = put_transition(flags, c, t, sample, e, b + 4 * i, x);
    }
    c
}

// The transition bins of the point that has the reading, in a table with that layout.
pub fn put_transitions(
    flags: &mut [u8],
    cur: usize,
    t: &[u8],
    l: Layout,
    sample: &[u32],
    lens: &[u32],
    own: PointReading,
) -> usize
    requires { (l.transitions < 1000000000) × (l.transition_count ≤ 64) × (l.transition_count ≤ length lens.now) × (cur + length (transition_flags t.now sample.now lens.now own.point (is_skipped (reading_from own.reading)) l.transitions l.transition_count) ≤ length flags.old) }
    ensures { (result ≡ cur + length (transition_flags t.now sample.now lens.now own.point (is_skipped (reading_from own.reading)) l.transitions l.transition_count)) × (flags.new ≡ put cur (transition_flags t.now sample.now lens.now own.point (is_skipped (reading_from own.reading)) l.transitions l.transition_count) flags.old) }
{
    let point = own.point;
    let skip = own.reading.is_skipped();
    let lost = lost_lengths(t, point, l.transitions, l.transition_count, lens);
    put_bins(
        flags,
        cur,
        t,
        l,
        sample,
        lens,
        Exclusion { point, skip, lost },
    )
}
