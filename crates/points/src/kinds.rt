// What each counter of the points is, and where each point's counters begin.
ghost use Rattle.std.specs.Prelude.{◌≡◌, true, ◌<◌, ◌≤◌, ◌+◌, ◌*◌, length, replicate};
ghost use Rattle.model.specs.Counters.{point_counters};
ghost use Rattle.model.specs.Format.{accepted, table_of};
ghost use Rattle.model.specs.Raw.{bin_at, bins_at};
ghost use Rattle.model.specs.Register.{point_total};
ghost use Rattle.arrays.specs.Put.{put};
ghost use Rattle.arrays.specs.Flat.{kinds_of, all_point_counters, point_starts};
ghost use Rattle.spans.specs.Part.{OwnBins};
ghost use Rattle.values.specs.Counts.{cover_count};
ghost use Rattle.points.specs.Kinds.{bin_kinds, kinds_in, transition_kinds, transition_kinds_from, Placed};

use arrays::{put_one, put_same};
use layout::{Layout, layout_of};
use spans::collects::Bins;
use spans::part::{own_parts, part_of};
use values::counts::several_count;
use values::points::{auto_total, has_auto, lowest_at};
use words::bytes::{byte, read2};
use words::kinds::Kind;

// The cover bin at a, its ranges from r on. low: the lowest value of its point's type. One bin, as most are, is stored without a loop.
fn put_cover_kinds(kinds: &mut [u8], cur: usize, t: &[u8], a: usize, r: usize, low: u64) -> usize
    requires { (a < 2000000000) × (r < 2000000000) × (low ≤ 8589934592) × (cur + cover_count low (bin_at t.now a r).form (bin_at t.now a r).ranges ≤ length kinds.old) }
    ensures { (result ≡ cur + cover_count low (bin_at t.now a r).form (bin_at t.now a r).ranges) × (kinds.new ≡ put cur (replicate (cover_count low (bin_at t.now a r).form (bin_at t.now a r).ranges) 0) kinds.old) }
{
    let form = byte(t, a + 2);
    if form == 0 {
        return put_one(kinds, cur, false);
    }
    let m = several_count(t, a, r, low);
    put_same(kinds, cur, m, 0)
}

// The value bin at a, its ranges from r on, where it is one of point p. low: the lowest value of the point's type.
fn put_bin_kinds(
    kinds: &mut [u8],
    cur: usize,
    t: &[u8],
    a: usize,
    r: usize,
    p: u8,
    low: u64,
) -> usize
    requires { (a < 2000000000) × (r < 2000000000) × (low ≤ 8589934592) × (cur + length (bin_kinds low p (bin_at t.now a r)) ≤ length kinds.old) }
    ensures { (result ≡ cur + length (bin_kinds low p (bin_at t.now a r))) × (kinds.new ≡ put cur (bin_kinds low p (bin_at t.now a r)) kinds.old) }
{
    let q = byte(t, a);
    if q != p {
        return cur;
    }
    match Kind::from(byte(t, a + 1)) {
        Kind::Cover => put_cover_kinds(kinds, cur, t, a, r, low),
        Kind::Ignore => cur,
        Kind::Illegal => put_same(kinds, cur, 1, 2),
        Kind::Default => put_same(kinds, cur, 1, 1),
    }
}

// The value bins of point p, which are among those of `own`.
fn put_value_kinds(kinds: &mut [u8], cur: usize, t: &[u8], own: Bins, p: u8, low: u64) -> usize
    requires bins_bound { (own.bins < 1000000000) × (own.ranges < 1000000000) × (own.count ≤ 512) × (low ≤ 8589934592) }
    requires count_in_bounds { cur + length (kinds_in low p (bins_at t.now own.bins own.ranges own.count)) ≤ length kinds.old }
    ensures { (result ≡ cur + length (kinds_in low p (bins_at t.now own.bins own.ranges own.count))) × (kinds.new ≡ put cur (kinds_in low p (bins_at t.now own.bins own.ranges own.count)) kinds.old) }
{
    let mut c = cur;
    let mut at = own.ranges;
    for i in 0..own.count {
        let here = own.bins + 8 * i;
        c = put_bin_kinds(kinds, c, t, here, at, p, low);
        let k = read2(t, here + 6);
        at += 17 * (k as usize);
    }
    c
}

// The transition bin at at, where it is one of point p.
fn put_transition_kind(kinds: &mut [u8], cur: usize, t: &[u8], p: u8, at: usize) -> usize
    requires { (at < 2000000000) × (cur + length (transition_kinds t.now p at) ≤ length kinds.old) }
    ensures { (result ≡ cur + length (transition_kinds t.now p at)) × (kinds.new ≡ put cur (transition_kinds t.now p at) kinds.old) }
{
    let q = byte(t, at);
    if q != p {
        return cur;
    }
    match Kind::from(byte(t, at + 1)) {
        Kind::Cover => put_same(kinds, cur, 1, 3),
        Kind::Illegal => put_same(kinds, cur, 1, 4),
        _ => cur,
    }
}

// The transition bins of point p among n bins from b on.
fn put_transition_kinds(kinds: &mut [u8], cur: usize, t: &[u8], p: u8, b: usize, n: usize) -> usize
    requires { (b < 1000000000) × (n < 65536) × (cur + length (transition_kinds_from t.now p b 0 n) ≤ length kinds.old) }
    ensures { (result ≡ cur + length (transition_kinds_from t.now p b 0 n)) × (kinds.new ≡ put cur (transition_kinds_from t.now p b 0 n) kinds.old) }
{
    let mut c = cur;
    for i in 0..n {
        c = put_transition_kind(kinds, c, t, p, b + 4 * i);
    }
    c
}

// The counters of point p, whose value bins are among those of `own`.
fn put_kinds(kinds: &mut [u8], cur: usize, t: &[u8], l: Layout, own: Bins, p: u8) -> usize
    requires { (Placed t.now l) × (p < point_total (table_of t.now)) × (OwnBins t.now p own) × (cur + 256 ≤ length kinds.old) }
    ensures { (result ≡ cur + length (point_counters (table_of t.now) p)) × (kinds.new ≡ put cur (kinds_of (point_counters (table_of t.now) p)) kinds.old) }
{
    let point = l.points + 11 * (p as usize);
    let b = l.transitions;
    let k = l.transition_count;
    let low = lowest_at(t, point);
    let has = has_auto(t, own.bins, own.count, b, k, p);
    let c = put_value_kinds(kinds, cur, t, own, p, low);
    let m = auto_total(t, point, has);
    let d = put_same(kinds, c, m, 0);
    put_transition_kinds(kinds, d, t, p, b, k)
}

// The counters of each point, and where they begin, by the places of the layout.
fn put_each(kinds: &mut [u8], starts: &mut [u16], t: &[u8], l: Layout) -> usize
    requires { (Placed t.now l) × (256 * point_total (table_of t.now) ≤ length kinds.old) × (17 ≤ length starts.old) }
    ensures value { result ≡ length (all_point_counters (table_of t.now)) }
    ensures kinds_after { (kinds.new ≡ put 0 (kinds_of (all_point_counters (table_of t.now))) kinds.old) × (starts.new ≡ put 0 (point_starts (table_of t.now)) starts.old) }
{
    let n = l.point_count;
    let parts = own_parts(t);
    let mut c = 0;
    for p in 0..n {
        starts[p] = c as u16;
        let own = part_of(parts, p);
        c = put_kinds(kinds, c, t, l, own, p as u8);
    }
    starts[n] = c as u16;
    c
}

// What each counter of the points is, and where each point's begin: how many there are.
pub fn put_point_kinds(kinds: &mut [u8], starts: &mut [u16], t: &[u8]) -> usize
    requires { (accepted t.now ≡ true) × (256 * point_total (table_of t.now) ≤ length kinds.old) × (17 ≤ length starts.old) }
    ensures value { result ≡ length (all_point_counters (table_of t.now)) }
    ensures kinds_after { (kinds.new ≡ put 0 (kinds_of (all_point_counters (table_of t.now))) kinds.old) × (starts.new ≡ put 0 (point_starts (table_of t.now)) starts.old) }
{
    let l = layout_of(t);
    put_each(kinds, starts, t, l)
}
