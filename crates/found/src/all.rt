// Which cover bins of each point a sample hits.
ghost use Rattle.std.specs.Prelude.{◌≡◌, true, ◌∷◌, ◌+◌, ◌*◌, ◌≤◌, ◌<◌, length, get_or, drop};
ghost use Rattle.model.specs.Format.{accepted, table_of};
ghost use Rattle.model.specs.Register.{point_total};
ghost use Rattle.arrays.specs.Put.{put};
ghost use Rattle.arrays.specs.Flat.{Readings, Origins};
ghost use Rattle.meets.specs.Plan.{ValuesPlan};
ghost use Rattle.places.specs.Places.{hit_parts, Found};
ghost use Rattle.found.specs.Found.{Reads};

use crate::{PointReading, put_found};
use arrays::element;
use arrays::reading::Reading;
use layout::{bin_sections, point_count};
use values::points::lowest_at;

// Where the rows, the spans and the pieces of a point begin in the plan.
#[derive(Clone, Copy)]
struct Bounds {
    rows: usize,
    spans: usize,
    pieces: usize,
}

fn bounds_of(lists: &[u16], p: usize) -> Bounds
    requires { p < 16 }
    ensures { (result.rows ≡ get_or lists.now (3 * p) 0) × (result.spans ≡ get_or lists.now (3 * p + 1) 0) × (result.pieces ≡ get_or lists.now (3 * p + 2) 0) }
{
    Bounds {
        rows: element(lists, 3 * p) as usize,
        spans: element(lists, 3 * p + 1) as usize,
        pieces: element(lists, 3 * p + 2) as usize,
    }
}

// Those of one point, in its row of 257 elements. lists has the bounds of the plan, and the origins of the cover bins from 64 on.
fn find_point(
    found: &mut [u16],
    t: &[u8],
    sample: &[u32],
    plan: &[u64],
    lists: &[u16],
    r: PointReading,
)
    requires reading { Reads t.now sample.now r }
    requires values_plan { ValuesPlan (table_of t.now) plan.now lists.now × Origins (table_of t.now) (drop 64 lists.now) × (64 + 256 * point_total (table_of t.now) ≤ length lists.now) × (257 * point_total (table_of t.now) ≤ length found.old) }
    ensures { found.new ≡ put (257 * r.point) (length (hit_parts (table_of t.now) sample.now r.point) ∷ hit_parts (table_of t.now) sample.now r.point) found.old }
{
    let p = r.point;
    let b = bounds_of(lists, p);
    put_found(
        &mut found[257 * p..],
        &plan[b.rows..b.spans],
        &plan[b.spans..b.pieces],
        &lists[64 + 256 * p..],
        t,
        sample,
        r,
    );
}

// Those of all points, one row after another.
pub fn find_all(
    found: &mut [u16],
    t: &[u8],
    sample: &[u32],
    readings: &[Reading],
    plan: &[u64],
    lists: &[u16],
)
    requires t_value { (accepted t.now ≡ true) × Readings (table_of t.now) sample.now readings.now × (16 ≤ length readings.now) }
    requires values_plan { ValuesPlan (table_of t.now) plan.now lists.now × Origins (table_of t.now) (drop 64 lists.now) × (64 + 256 * point_total (table_of t.now) ≤ length lists.now) × (257 * point_total (table_of t.now) ≤ length found.old) }
    ensures { Found (table_of t.now) sample.now found.new × (length found.new ≡ length found.old) }
{
    let l = bin_sections(t);
    let n = point_count(t);
    for p in 0..n {
        let r = PointReading {
            point: p,
            reading: readings[p],
            low: lowest_at(t, 2 + 11 * p),
            bins: l.bins,
        };
        find_point(found, t, sample, plan, lists, r);
    }
}
