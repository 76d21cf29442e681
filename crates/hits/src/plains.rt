// The places of the default bins and illegal bins that are hit.
ghost use Rattle.std.specs.Prelude.{◌≡◌, ◌<◌, ◌≤◌, ◌+◌, length};
ghost use Rattle.model.specs.Raw.{bin_at, bins_at};
ghost use Rattle.arrays.specs.Put.{put};
ghost use Rattle.values.specs.Listed.{listed_in};
ghost use Rattle.hits.specs.Plains.{is_plain_bin, plain_hit, plain_hits};

use arrays::element;
use layout::Layout;
use places::put_if;
use ranges::member::in_ranges;
use values::bins::listed;
use values::fields::guard_true;
use words::bytes::{byte, read2};
use words::kinds::Kind;

// The number of a point, its value in a sample, and whether a bin of the point lists it.
#[derive(Clone, Copy)]
struct ListedValue {
    point: u8,
    value: u64,
    listed: bool,
}

// The bin at a is a plain bin of point p.
fn is_plain(t: &[u8], a: usize, r: usize, p: u8) -> bool
    requires { (a < 2000000000) × (r < 2000000000) }
    ensures { result ≡ is_plain_bin p (bin_at t.now a r) }
{
    let q = byte(t, a);
    let kind = Kind::from(byte(t, a + 1));
    (q == p) & matches!(kind, Kind::Illegal | Kind::Default)
}

// The bin at a, its ranges from r on, is a plain bin of the point, as own says, and has the value.
fn plain_hit(t: &[u8], a: usize, r: usize, sample: &[u32], own: bool, h: ListedValue) -> bool
    requires { (a < 2000000000) × (r < 2000000000) × (own ≡ is_plain_bin h.point (bin_at t.now a r)) }
    ensures { result ≡ plain_hit sample.now h.point h.value h.listed (bin_at t.now a r) }
{
    if !own {
        return false;
    }
    let kind = Kind::from(byte(t, a + 1));
    let g = byte(t, a + 5);
    let y = guard_true(sample, g);
    if kind != Kind::Illegal {
        return y & !h.listed;
    }
    let n = read2(t, a + 6);
    let z = in_ranges(t, r, n as usize, h.value);
    y & z
}

// Those of the point's plain bins, whose places are in plains.
fn put_plains(
    hits: &mut [u16],
    t: &[u8],
    l: Layout,
    sample: &[u32],
    plains: &[u16],
    h: ListedValue,
) -> usize
    requires { (l.bins < 1000000000) × (l.ranges < 1000000000) × (l.bin_count ≤ 512) × (length (plain_hits sample.now h.point h.value h.listed plains.now 0 (bins_at t.now l.bins l.ranges l.bin_count)) ≤ length hits.old) }
    ensures { (result ≡ length (plain_hits sample.now h.point h.value h.listed plains.now 0 (bins_at t.now l.bins l.ranges l.bin_count))) × (hits.new ≡ put 0 (plain_hits sample.now h.point h.value h.listed plains.now 0 (bins_at t.now l.bins l.ranges l.bin_count)) hits.old) }
{
    let a = l.bins;
    let n = l.bin_count;
    let mut c = 0;
    let mut j = 0;
    let mut at = l.ranges;
    for i in 0..n {
        let here = a + 8 * i;
        let own = is_plain(t, here, at, h.point);
        let y = plain_hit(t, here, at, sample, own, h);
        let place = element(plains, j) as usize;
        c = put_if(hits, c, y, place);
        j += usize::from(own);
        at += 17 * (read2(t, here + 6) as usize);
    }
    c
}

// The same for a point and its value.
pub fn put_plain_hits(
    hits: &mut [u16],
    t: &[u8],
    l: Layout,
    sample: &[u32],
    plains: &[u16],
    point: u8,
    value: u64,
) -> usize
    requires { (l.bins < 1000000000) × (l.ranges < 1000000000) × (l.bin_count ≤ 512) × (length (plain_hits sample.now point value (listed_in point value (bins_at t.now l.bins l.ranges l.bin_count)) plains.now 0 (bins_at t.now l.bins l.ranges l.bin_count)) ≤ length hits.old) }
    ensures { (result ≡ length (plain_hits sample.now point value (listed_in point value (bins_at t.now l.bins l.ranges l.bin_count)) plains.now 0 (bins_at t.now l.bins l.ranges l.bin_count))) × (hits.new ≡ put 0 (plain_hits sample.now point value (listed_in point value (bins_at t.now l.bins l.ranges l.bin_count)) plains.now 0 (bins_at t.now l.bins l.ranges l.bin_count)) hits.old) }
{
    let y = listed(t, l.bins, l.ranges, l.bin_count, point, value);
    let h = ListedValue {
        point,
        value,
        listed: y,
    };
    put_plains(hits, t, l, sample, plains, h)
}
