// The places of each point's cover bins and plain bins.
ghost use Rattle.std.specs.Prelude.{◌≡◌, true, ◌≤◌, ◌+◌, ◌*◌, length, take};
ghost use Rattle.model.specs.Format.{accepted, table_of};
ghost use Rattle.model.specs.Register.{point_total};
ghost use Rattle.arrays.specs.Put.{put};
ghost use Rattle.arrays.specs.Flat.{point_starts};
ghost use Rattle.points.specs.Gates.{Kinded};
ghost use Rattle.places.specs.Places.{PlaceRows};
ghost use Rattle.lists.specs.Stages.{row_of};

use layout::point_count;
use places::{put_covers, put_plains};

// The row of a point with n counters, the first of which has place base.
fn put_row(row: &mut [u16], kinds: &[u8], n: usize, base: usize)
    requires { (n ≤ length kinds.now) × (258 ≤ length row.old) × (n ≤ 256) × (base + n ≤ 65535) }
    ensures { row.new ≡ put 0 (row_of base (take n kinds.now)) row.old }
{
    let own = &kinds[..n];
    let c = put_covers(&mut row[2..], own, base);
    let q = put_plains(&mut row[2 + c..], own, base);
    row[1] = c as u16;
    row[0] = q as u16;
}

// The rows of all points, 258 elements each. starts tells where each point's counters begin.
pub fn put_place_rows(rows: &mut [u16], t: &[u8], kinds: &[u8], starts: &[u16])
    requires t_value { (accepted t.now ≡ true) × (258 * point_total (table_of t.now) ≤ length rows.old) × (17 ≤ length starts.now) }
    requires kinded { (Kinded (table_of t.now) kinds.now) × (take (point_total (table_of t.now) + 1) starts.now ≡ point_starts (table_of t.now)) }
    ensures { PlaceRows (table_of t.now) rows.new × (length rows.new ≡ length rows.old) }
{
    let n = point_count(t);
    for p in 0..n {
        let from = starts[p] as usize;
        let end = starts[p + 1] as usize;
        put_row(&mut rows[258 * p..], &kinds[from..], end - from, from);
    }
}
