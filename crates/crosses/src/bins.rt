// Elements of a cross's bins and products.
ghost use Rattle.std.specs.Prelude.{◌≡◌, ◌&&◌, ◌<◌, ◌≤◌, ◌+◌, length, take};
ghost use Rattle.model.specs.Lists.{as_bit};
ghost use Rattle.model.specs.Format.{byte, kind_from, guard_from};
ghost use Rattle.arrays.specs.Put.{put};
ghost use Rattle.crosses.specs.Flags.{passes, heads_at, is_odd, label_of, bin_flags, product_flags, cross_flags};

use crate::own::{every_mark, mask_of, own_marks};
use arrays::put_one;
use values::fields::guard_true;
use words::bytes::byte;
use words::kinds::Kind;

// Where the flags begin, and which they are: those of the total, or those of a sample.
#[derive(Clone, Copy)]
pub struct Ask {
    pub at: usize,
    pub total: bool,
}

// Where a cross's record stands, where its bins begin, and how many products it has.
#[derive(Clone, Copy)]
pub struct Rows {
    pub cross: usize,
    pub bins: usize,
    pub products: usize,
}

// Whether a cross's guard holds, and which of its bins have a product that counts: bit i of `own` for cover bin i, bit i of `every` for illegal bin i.
#[derive(Clone, Copy)]
pub struct Raised {
    pub live: bool,
    pub own: u16,
    pub every: u16,
}

// The guard g holds, or need not.
fn passing(sample: &[u32], total: bool, g: u8) -> bool
    ensures { result ≡ passes sample.now total (guard_from g) }
{
    let y = guard_true(sample, g);
    total | y
}

// One element for a cover bin, one for an illegal bin.
pub fn put_label(out: &mut [u8], cur: usize, kind: u8, cover: u8, illegal: u8) -> usize
    requires { cur + length (label_of cover illegal (kind_from kind)) ≤ length out.old }
    ensures { (result ≡ cur + length (label_of cover illegal (kind_from kind))) × (out.new ≡ put cur (label_of cover illegal (kind_from kind)) out.old) }
{
    match Kind::from(kind) {
        Kind::Cover => {
            out[cur] = cover;
            cur + 1
        }
        Kind::Illegal => {
            out[cur] = illegal;
            cur + 1
        }
        _ => cur,
    }
}

fn flag_of(on: bool, word: u16) -> u8
    ensures { result ≡ as_bit (on && is_odd word) }
{
    arrays::as_bit(on & (word % 2 == 1))
}

// The flags of n bins from b on.
pub fn put_bins(
    flags: &mut [u8],
    t: &[u8],
    sample: &[u32],
    ask: Ask,
    r: Raised,
    b: usize,
    n: usize,
) -> usize
    requires { (b < 1000000000000) × (n < 256) × (ask.at + length (bin_flags sample.now ask.total r.live r.own r.every (heads_at t.now b n)) ≤ length flags.old) }
    ensures { (result ≡ ask.at + length (bin_flags sample.now ask.total r.live r.own r.every (heads_at t.now b n))) × (flags.new ≡ put ask.at (bin_flags sample.now ask.total r.live r.own r.every (heads_at t.now b n)) flags.old) }
{
    let total = ask.total;
    let live = r.live;
    let mut at = ask.at;
    let mut x = r.own;
    let mut y = r.every;
    for i in 0..n {
        let here = b + 3 * i;
        let on = live & passing(sample, total, byte(t, here + 1));
        at = put_label(flags, at, byte(t, here), flag_of(on, x), flag_of(on, y));
        x = x / 2;
        y = y / 2;
    }
    at
}

// The flags of n products.
fn put_products(
    flags: &mut [u8],
    cur: usize,
    hits: &[u8],
    marks: &[u16],
    n: usize,
    live: bool,
) -> usize
    requires { (n ≤ length hits.now) × (n ≤ length marks.now) × (cur + n ≤ length flags.old) }
    ensures { (result ≡ cur + n) × (flags.new ≡ put cur (product_flags live (take n hits.now) (take n marks.now)) flags.old) }
{
    for i in 0..n {
        let own = (hits[i] == 1) & (marks[i] == 0);
        put_one(flags, cur + i, live & own);
    }
    cur + n
}

// The flags of a cross, from its products' hits and marks.
pub fn put_cross(
    flags: &mut [u8],
    t: &[u8],
    sample: &[u32],
    hits: &[u8],
    marks: &[u16],
    ask: Ask,
    x: Rows,
) -> usize
    requires cross_bound { (x.cross < 1000000000000) × (x.bins < 1000000000000) × (byte t.now (x.cross + 12) ≤ 16) }
    requires products_in_bounds { (x.products ≤ length hits.now) × (x.products ≤ length marks.now) × (ask.at + length (cross_flags t.now sample.now ask.total x.cross x.bins (take x.products hits.now) (take x.products marks.now)) ≤ length flags.old) }
    ensures { (result ≡ ask.at + length (cross_flags t.now sample.now ask.total x.cross x.bins (take x.products hits.now) (take x.products marks.now))) × (flags.new ≡ put ask.at (cross_flags t.now sample.now ask.total x.cross x.bins (take x.products hits.now) (take x.products marks.now)) flags.old) }
{
    let cp = x.cross;
    let bp = x.bins;
    let n = x.products;
    let total = ask.total;
    let k = byte(t, cp + 12) as usize;
    let live = passing(sample, total, byte(t, cp + 5));
    let r = Raised {
        live,
        own: own_marks(hits, marks, n, mask_of(t, bp, k)),
        every: every_mark(hits, marks, n, total),
    };
    let at = put_bins(flags, t, sample, ask, r, bp, k);
    put_products(flags, at, hits, marks, n, live)
}
