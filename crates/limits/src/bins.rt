// What the value bins add to the entries of their points, in one pass.
ghost use Rattle.std.specs.Prelude.{◌≡◌, true, ◌+◌, ◌*◌, ◌≤◌, ◌<◌, length};
ghost use Rattle.model.specs.Lists.{all};
ghost use Rattle.model.specs.Format.{byte, point_record};
ghost use Rattle.model.specs.Ranges.{first_values, range_count, covers_of, counters_of};
ghost use Rattle.model.specs.Raw.{ranges_at, bin_at, bins_at};
ghost use Rattle.ranges.specs.Types.{Wide, AllWide};
ghost use Rattle.limits.specs.Walks.{value_illegals};
ghost use Rattle.words.specs.Kinds.{meant};
ghost use Rattle.limits.specs.Bins.{form_at, own_ranges, more, added, Entries, bin_below, bin_point, bin_covers, bin_singles, bars_of, bin_bars};

use crate::entries::{Counts, add};
use layout::Layout;
use ranges::counts::value_count;
use ranges::{lowest, type_at};
use words::bytes::{inside, whole2};
use words::kinds::Kind;

// How many values n ranges from start on have, of the point whose record is at point; 257 if there are more.
fn per_value(t: &[u8], point: usize, start: usize, n: usize) -> usize
    requires { (point ≤ 1000000000) × (start ≤ 1000000000) × (n ≤ 65535) × Wide t.now point }
    ensures { (result ≡ length (first_values (point_record t.now point) (ranges_at t.now start n))) × (result ≤ 257) }
{
    let low = lowest(type_at(t, point));
    value_count(t, start, n, low)
}

// How many bins the value bin at b stands for, whose ranges are from r on; 257 if a bin per value makes more.
fn bins_of(t: &[u8], point: usize, b: usize, r: usize) -> usize
    requires { (point ≤ 1000000000) × (b ≤ 1000000000) × (r ≤ 1000000000) × Wide t.now point × (b + 8 ≤ length t.now) }
    ensures { (result ≡ range_count (point_record t.now point) (form_at t.now b) (own_ranges t.now b r)) × (result ≤ 65535) }
{
    match inside(t, b + 2) {
        0 => 1,
        1 => per_value(t, point, r, usize::from(whole2(t, b + 6))),
        _ => usize::from(whole2(t, b + 3)),
    }
}

// The cover bins of a bin of some kind.
fn covers_of(t: &[u8], kind: Kind, point: usize, b: usize, r: usize) -> u32
    requires { (point ≤ 1000000000) × (b ≤ 1000000000) × (r ≤ 1000000000) × Wide t.now point × (b + 8 ≤ length t.now) }
    ensures { (result ≡ covers_of (meant kind) (range_count (point_record t.now point) (form_at t.now b) (own_ranges t.now b r))) × (result ≤ 65535) }
{
    match kind {
        Kind::Cover => bins_of(t, point, b, r) as u32,
        _ => 0,
    }
}

// The counter of a bin that is no cover bin.
fn single_of(kind: Kind) -> u32
    ensures { (result ≡ counters_of (meant kind) 0) × (result ≤ 1) }
{
    match kind {
        Kind::Illegal | Kind::Default => 1,
        _ => 0,
    }
}

// 1 for a bin that bars auto bins.
fn bar_of(kind: Kind) -> u32
    ensures { (result ≡ bars_of (meant kind)) × (result ≤ 1) }
{
    match kind {
        Kind::Ignore | Kind::Illegal => 0,
        _ => 1,
    }
}

// The value bin at b, whose ranges are from r on.
fn add_bin(counts: &mut Counts, t: &[u8], points: usize, b: usize, r: usize)
    requires points_bound { (points ≤ 16777216) × (b ≤ 1000000000) × (r ≤ 1000000000) × (byte t.now b < 16) × Wide t.now (points + 11 * byte t.now b) × (b + 8 ≤ length t.now) }
    requires entries { Entries 50000000 counts.old.covers × Entries 1000 counts.old.singles × Entries 1000 counts.old.bars }
    ensures covers_after { counts.new.covers ≡ more (byte t.now b) (bin_covers t.now points (bin_at t.now b r)) counts.old.covers }
    ensures singles_after { counts.new.singles ≡ more (byte t.now b) (bin_singles (bin_at t.now b r)) counts.old.singles }
    ensures bars_after { counts.new.bars ≡ more (byte t.now b) (bin_bars (bin_at t.now b r)) counts.old.bars }
    ensures r_bound { bin_covers t.now points (bin_at t.now b r) ≤ 65535 }
{
    let p = usize::from(inside(t, b));
    let kind = Kind::from(inside(t, b + 1));
    let n = covers_of(t, kind, points + 11 * p, b, r);
    add(&mut counts.covers, p, n);
    add(&mut counts.singles, p, single_of(kind));
    add(&mut counts.bars, p, bar_of(kind));
}

// The value bins of a table with that layout; and how many of them are illegal bins.
pub fn add_bins(counts: &mut Counts, t: &[u8], l: Layout) -> usize
    requires points_bound { (l.points ≤ 16777216) × (l.point_count ≤ 16) × (l.bins ≤ 16777216) × (l.ranges ≤ 16777216) × (l.bin_count ≤ 512) × AllWide t.now l.points l.point_count × (l.bins + 8 * l.bin_count ≤ length t.now) }
    requires bin_count_value { all (bin_below l.point_count) (bins_at t.now l.bins l.ranges l.bin_count) ≡ true }
    requires entries { Entries 0 counts.old.covers × Entries 0 counts.old.singles × Entries 0 counts.old.bars }
    ensures covers_after { counts.new.covers ≡ added bin_point (bin_covers t.now l.points) (bins_at t.now l.bins l.ranges l.bin_count) counts.old.covers }
    ensures singles_after { counts.new.singles ≡ added bin_point bin_singles (bins_at t.now l.bins l.ranges l.bin_count) counts.old.singles }
    ensures bars_after { counts.new.bars ≡ added bin_point bin_bars (bins_at t.now l.bins l.ranges l.bin_count) counts.old.bars }
    ensures entries_2 { Entries (65535 * l.bin_count) counts.new.covers × Entries l.bin_count counts.new.singles × Entries l.bin_count counts.new.bars }
    ensures value { (result ≡ value_illegals t.now l) × (result ≤ l.bin_count) }
{
    let n = l.bin_count;
    let mut illegals: usize = 0;
    let mut b = l.bins;
    let mut r = l.ranges;
    for i in 0..n {
        add_bin(counts, t, l.points, b, r);
        let kind = inside(t, b + 1);
        let owned = usize::from(whole2(t, b + 6));
        illegals += usize::from(kind == u8::from(Kind::Illegal));
        b += 8;
        r += 17 * owned;
    }
    illegals
}
