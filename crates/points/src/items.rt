// The item of each counter of the points: its point.
ghost use Rattle.std.specs.Prelude.{◌≡◌, true, ◌≤◌, ◌+◌, ◌*◌, length, take};
ghost use Rattle.model.specs.Format.{accepted, table_of};
ghost use Rattle.model.specs.Register.{point_total};
ghost use Rattle.arrays.specs.Put.{put};
ghost use Rattle.arrays.specs.Flat.{items_of, all_point_counters, point_starts};

use arrays::put_same;
use layout::point_count;

// Those of n points.
fn put_each(items: &mut [u8], t: &[u8], starts: &[u16], n: usize) -> usize
    requires { (accepted t.now ≡ true) × (256 * point_total (table_of t.now) ≤ length items.old) × (17 ≤ length starts.now) × (take (point_total (table_of t.now) + 1) starts.now ≡ point_starts (table_of t.now)) × (n ≡ point_total (table_of t.now)) }
    ensures value { result ≡ length (all_point_counters (table_of t.now)) }
    ensures after { items.new ≡ put 0 (items_of (table_of t.now) (all_point_counters (table_of t.now))) items.old }
{
    let mut c: usize = 0;
    for p in 0..n {
        let e = starts[p + 1] as usize;
        c = put_same(items, c, e - c, p as u8);
    }
    c
}

// The item of each counter, given where each point's counters begin: how many there are.
pub fn put_point_items(items: &mut [u8], t: &[u8], starts: &[u16]) -> usize
    requires { (accepted t.now ≡ true) × (256 * point_total (table_of t.now) ≤ length items.old) × (17 ≤ length starts.now) × (take (point_total (table_of t.now) + 1) starts.now ≡ point_starts (table_of t.now)) }
    ensures value { result ≡ length (all_point_counters (table_of t.now)) }
    ensures after { items.new ≡ put 0 (items_of (table_of t.now) (all_point_counters (table_of t.now))) items.old }
{
    let n = point_count(t);
    put_each(items, t, starts, n)
}
