// Elements that depend only on what a counter of a cross is, and on its cross: kinds and items.
ghost use Rattle.std.specs.Prelude.{◌≡◌, true, map, ℕ, ◌<◌, ◌≤◌, ◌+◌, length, take};
ghost use Rattle.model.specs.Counters.{Counter, product_count};
ghost use Rattle.model.specs.Register.{point_total};
ghost use Rattle.model.specs.Format.{accepted, table_of};
ghost use Rattle.arrays.specs.Put.{put};
ghost use Rattle.arrays.specs.Flat.{cover_counts, kinds_of, items_of, all_cross_counters};
ghost use Rattle.layout.specs.Places.{layout_of};
ghost use Rattle.products.specs.Shapes.{Stands};
ghost use Rattle.crosses.specs.Flags.{heads_at};
ghost use Rattle.crosses.specs.Labels.{bin_labels, cross_labels, shift, Labels};

use crate::bins::put_label;
use crate::order::{first_place, next_place};
use arrays::put_same;
use layout::{Layout, layout_of};
use products::places::{Place, shape_of};
use words::bytes::byte;

// What stands for a cover bin of a cross, for an illegal one, and for a product.
#[derive(Clone, Copy)]
pub struct Elements {
    pub cover: u8,
    pub illegal: u8,
    pub product: u8,
}

// The elements of n bins from b on.
fn put_labels(out: &mut [u8], cur: usize, t: &[u8], b: usize, n: usize, e: Elements) -> usize
    requires { (b < 1000000000000) × (n < 256) × (cur + length (bin_labels e.cover e.illegal (heads_at t.now b n)) ≤ length out.old) }
    ensures { (result ≡ cur + length (bin_labels e.cover e.illegal (heads_at t.now b n))) × (out.new ≡ put cur (bin_labels e.cover e.illegal (heads_at t.now b n)) out.old) }
{
    let mut at = cur;
    for i in 0..n {
        let kind = byte(t, b + 3 * i);
        at = put_label(out, at, kind, e.cover, e.illegal);
    }
    at
}

// The elements of one cross.
fn put_cross_labels(
    out: &mut [u8],
    cur: usize,
    t: &[u8],
    counts: &[u16],
    e: Elements,
    p: Place,
) -> usize
    requires stands { Stands t.now p × (take (point_total (table_of t.now)) counts.now ≡ cover_counts (table_of t.now)) }
    requires bins_in_bounds { cur + length (cross_labels t.now (product_count (table_of t.now) p.number) e.cover e.illegal e.product p.cross p.bins) ≤ length out.old }
    ensures { (result ≡ cur + length (cross_labels t.now (product_count (table_of t.now) p.number) e.cover e.illegal e.product p.cross p.bins)) × (out.new ≡ put cur (cross_labels t.now (product_count (table_of t.now) p.number) e.cover e.illegal e.product p.cross p.bins) out.old) }
{
    let at = p.cross;
    let bins = p.bins;
    let k = byte(t, at + 12) as usize;
    let s = shape_of(t, counts, p);
    let next = put_labels(out, cur, t, bins, k, e);
    put_same(out, next, s.total, e.product)
}

fn shift_of(each: bool, c: usize) -> u8
    requires { c < 100 }
    ensures { (result ≡ shift each c) × (result < 100) }
{
    if each { c as u8 } else { 0 }
}

// The elements of all crosses, each moved on by the cross's number if `each` says so.
fn put_all_labels(
    out: &mut [u8],
    cur: usize,
    t: &[u8],
    l: Layout,
    counts: &[u16],
    e: Elements,
    each: bool,
) -> usize
    requires t_value { (accepted t.now ≡ true) × (l ≡ layout_of t.now) × (take (point_total (table_of t.now)) counts.now ≡ cover_counts (table_of t.now)) }
    requires t_in_bounds { (cur + length (all_cross_counters (table_of t.now)) ≤ length out.old) × (e.cover < 100) × (e.illegal < 100) × (e.product < 100) }
    ensures value { result ≡ cur + length (all_cross_counters (table_of t.now)) }
    ensures by_index { (g : Counter → ℕ) → Labels g e.cover e.illegal e.product each → out.new ≡ put cur (map g (all_cross_counters (table_of t.now))) out.old }
{
    let n = l.cross_count;
    let mut p = first_place(l);
    let mut at = cur;
    for c in 0..n {
        let d = shift_of(each, c);
        let x = Elements {
            cover: e.cover + d,
            illegal: e.illegal + d,
            product: e.product + d,
        };
        at = put_cross_labels(out, at, t, counts, x, p);
        p = next_place(t, p);
    }
    at
}

// What each counter of a cross is.
pub fn put_cross_kinds(kinds: &mut [u8], cur: usize, t: &[u8], counts: &[u16]) -> usize
    requires { (accepted t.now ≡ true) × (take (point_total (table_of t.now)) counts.now ≡ cover_counts (table_of t.now)) × (cur + length (all_cross_counters (table_of t.now)) ≤ length kinds.old) }
    ensures value { result ≡ cur + length (all_cross_counters (table_of t.now)) }
    ensures kinds_after { kinds.new ≡ put cur (kinds_of (all_cross_counters (table_of t.now))) kinds.old }
{
    let l = layout_of(t);
    let e = Elements {
        cover: 5,
        illegal: 6,
        product: 7,
    };
    put_all_labels(kinds, cur, t, l, counts, e, false)
}

// The item of each counter of a cross: crosses are numbered after the points.
pub fn put_cross_items(items: &mut [u8], cur: usize, t: &[u8], counts: &[u16]) -> usize
    requires { (accepted t.now ≡ true) × (take (point_total (table_of t.now)) counts.now ≡ cover_counts (table_of t.now)) × (cur + length (all_cross_counters (table_of t.now)) ≤ length items.old) }
    ensures value { result ≡ cur + length (all_cross_counters (table_of t.now)) }
    ensures after { items.new ≡ put cur (items_of (table_of t.now) (all_cross_counters (table_of t.now))) items.old }
{
    let l = layout_of(t);
    let points = l.point_count as u8;
    let e = Elements {
        cover: points,
        illegal: points,
        product: points,
    };
    put_all_labels(items, cur, t, l, counts, e, true)
}
