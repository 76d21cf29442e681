// The places of one cross.
ghost use Rattle.std.specs.Prelude.{◌≡◌, ◌+◌, ◌≤◌, length};
ghost use Rattle.model.specs.Counters.{cross_counters};
ghost use Rattle.model.specs.Sampling.{Stretches};
ghost use Rattle.model.specs.Format.{byte as byte_at, table_of};
ghost use Rattle.arrays.specs.Put.{put};
ghost use Rattle.products.specs.Marks.{Below};
ghost use Rattle.crosshits.specs.Cross.{Given, live_places, live_flags, cross_numbers, cross_total, cross_hits};

use crate::marks::{Products, marks_of, put_own};
use crate::numbers::{Turn, hit_count, put_numbers};
use crosses::bins::{Ask, Raised, put_bins};
use crosses::own::mask_of;
use places::put_set;
use products::places::Place;
use products::shapes::Shape;
use values::fields::guard_true;
use words::bytes::byte;

// A cross, its first counter, where its marks begin, and where the next place stands.
#[derive(Clone, Copy)]
pub struct Cross {
    pub place: Place,
    pub shape: Shape,
    pub first: usize,
    pub start: usize,
    pub at: usize,
}

// The guard of the cross holds, and the numbers of the hit products are listed.
fn put_live(
    hits: &mut [u16],
    list: &[u16],
    t: &[u8],
    sample: &[u32],
    plan: &[u16],
    x: Cross,
) -> usize
    requires { (x.place.cross ≤ 65536) × (x.place.bins ≤ 65536) × (byte_at t.now (x.place.cross + 12) ≤ 16) × Below (length list.now) 1024 list.now × (x.start ≤ 65536) × (x.first + length (live_flags t.now sample.now plan.now list.now x) ≤ 64511) × (x.at + (length (live_flags t.now sample.now plan.now list.now x) + length list.now) ≤ length hits.old) × (x.at ≤ x.first) }
    ensures { (result ≡ x.at + length (live_places t.now sample.now plan.now list.now x)) × (hits.new ≡ put x.at (live_places t.now sample.now plan.now list.now x) hits.old) }
{
    let mut flags = [0u8; 16];
    let p = x.place;
    let b = p.bins;
    let at = x.at;
    let start = x.start;
    let first = x.first;
    let k = byte(t, p.cross + 12) as usize;
    let r = Raised {
        live: true,
        own: marks_of(list, plan, start, mask_of(t, b, k)),
        every: marks_of(list, plan, start, 0),
    };
    let ask = Ask {
        at: 0,
        total: false,
    };
    let m = put_bins(&mut flags, t, sample, ask, r, b, k);
    let c = put_set(&mut hits[at..], &flags[..m], first);
    let y = Products {
        at: at + c,
        first: first + m,
        start,
    };
    put_own(hits, list, plan, y)
}

// The numbers of the hit products are listed first; `list` has room for them.
fn put_listed(
    hits: &mut [u16],
    list: &mut [u16],
    t: &[u8],
    sample: &[u32],
    found: &[u16],
    plan: &[u16],
    x: Cross,
) -> usize
    requires { Given t.now sample.now found.now plan.now x × (x.at + length (cross_counters (table_of t.now) x.place.number) ≤ length hits.old) × (cross_total t.now found.now x ≤ length list.old) }
    ensures { (result ≡ x.at + length (live_places t.now sample.now plan.now (cross_numbers t.now found.now x) x)) × (hits.new ≡ put x.at (live_places t.now sample.now plan.now (cross_numbers t.now found.now x) x) hits.old) }
{
    let p = x.place;
    let s = x.shape;
    let y = Turn {
        at: 0,
        first: 0,
        point: p.cross + 1,
        q: 0,
    };
    let n = put_numbers(list, t, found, s, y);
    put_live(hits, &list[..n], t, sample, plan, x)
}

// ---- size classes

fn put_within<const N: usize>(
    hits: &mut [u16],
    t: &[u8],
    sample: &[u32],
    found: &[u16],
    plan: &[u16],
    x: Cross,
) -> usize
    requires small { N ≤ 1024 }
    requires given { Given t.now sample.now found.now plan.now x × (x.at + length (cross_counters (table_of t.now) x.place.number) ≤ length hits.old) × (cross_total t.now found.now x ≤ N) }
    ensures { (result ≡ x.at + length (live_places t.now sample.now plan.now (cross_numbers t.now found.now x) x)) × (hits.new ≡ put x.at (live_places t.now sample.now plan.now (cross_numbers t.now found.now x) x) hits.old) }
{
    let mut list = [0u16; N];
    put_listed(hits, &mut list, t, sample, found, plan, x)
}

// The counters of a cross that the sample hits. Answers where the next place stands.
pub fn put_one(
    hits: &mut [u16],
    t: &[u8],
    sample: &[u32],
    found: &[u16],
    plan: &[u16],
    x: Cross,
) -> usize
    requires { Given t.now sample.now found.now plan.now x × (x.at + length (cross_counters (table_of t.now) x.place.number) ≤ length hits.old) }
    ensures { (m : Stretches) → (result ≡ x.at + length (cross_hits t.now sample.now m x)) × (hits.new ≡ put x.at (cross_hits t.now sample.now m x) hits.old) }
{
    let p = x.place;
    let cp = p.cross;
    let at = x.at;
    let live = guard_true(sample, byte(t, cp + 5));
    if !live {
        return at;
    }
    let s = x.shape;
    let n = hit_count(t, found, cp + 1, s.count);
    if n == 0 {
        return at;
    }
    if n <= 64 {
        return put_within::<64>(hits, t, sample, found, plan, x);
    }
    put_within::<1024>(hits, t, sample, found, plan, x)
}
