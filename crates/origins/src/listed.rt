// The value bin that each cover bin of a point comes of.
ghost use Rattle.std.specs.Prelude.{◌≡◌, ◌+◌, ◌*◌, ◌≤◌, ◌<◌, length};
ghost use Rattle.model.specs.Raw.{bin_at, bins_at};
ghost use Rattle.ranges.specs.Types.{Wide};
ghost use Rattle.arrays.specs.Put.{put};
ghost use Rattle.origins.specs.Points.{own_count, origins_in, first_of, point_origins};

use arrays::put_same;
use layout::Layout;
use spans::collects::Bins;
use values::counts::several_count;
use values::points::{auto_total, has_auto, lowest_at};
use words::bytes::{byte, read2};
use words::kinds::Kind;

// How many bins the value bin at b stands for, its ranges from r on; 0 where it is no cover bin of point p.
fn own_count(t: &[u8], b: usize, r: usize, p: u8, low: u64) -> usize
    requires { (b ≤ 2000000000) × (r ≤ 2000000000) × (low ≤ 8589934592) }
    ensures { (result ≡ own_count low p (bin_at t.now b r)) × (result ≤ 65535) }
{
    let q = byte(t, b);
    if q != p {
        return 0;
    }
    let kind = Kind::from(byte(t, b + 1));
    if kind != Kind::Cover {
        return 0;
    }
    let form = byte(t, b + 2);
    if form == 0 {
        return 1;
    }
    several_count(t, b, r, low)
}

// Value bin after value bin of `own`, whose first one is number `first`.
fn put_listed(
    out: &mut [u16],
    at: usize,
    t: &[u8],
    own: Bins,
    first: usize,
    p: u8,
    low: u64,
) -> usize
    requires { (own.bins < 1000000000) × (own.ranges < 1000000000) × (first + own.count ≤ 512) × (low ≤ 8589934592) × (at + length (origins_in low p first (bins_at t.now own.bins own.ranges own.count)) ≤ length out.old) }
    ensures { (result ≡ at + length (origins_in low p first (bins_at t.now own.bins own.ranges own.count))) × (out.new ≡ put at (origins_in low p first (bins_at t.now own.bins own.ranges own.count)) out.old) }
{
    let mut c = at;
    let mut r = own.ranges;
    for i in 0..own.count {
        let b = own.bins + 8 * i;
        let m = own_count(t, b, r, p, low);
        c = put_same(out, c, m, (first + i) as u16);
        r += 17 * read2(t, b + 6) as usize;
    }
    c
}

// Those of point p, whose value bins are among those of `own`, from at on.
pub fn put_point_origins(out: &mut [u16], at: usize, t: &[u8], l: Layout, own: Bins, p: u8) -> usize
    requires points_bound { (l.points ≤ 16777216) × (l.transitions < 1000000000) × (l.transition_count < 65536) × Wide t.now (l.points + 11 * p) }
    requires bins_bound { (own.bins < 1000000000) × (own.ranges < 1000000000) × (l.bins ≤ own.bins) × (first_of l own + own.count ≤ 512) × (at + length (point_origins t.now l own p) ≤ length out.old) }
    ensures { (result ≡ at + length (point_origins t.now l own p)) × (out.new ≡ put at (point_origins t.now l own p) out.old) }
{
    let point = l.points + 11 * (p as usize);
    let low = lowest_at(t, point);
    let has = has_auto(t, own.bins, own.count, l.transitions, l.transition_count, p);
    let m = auto_total(t, point, has);
    let first = (own.bins - l.bins) / 8;
    let e = put_listed(out, at, t, own, first, p, low);
    put_same(out, e, m, 65535)
}
