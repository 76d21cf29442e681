// The value bin that each cover bin of a table comes of.
#![tactic(auto)]

ghost use Rattle.std.specs.Prelude.{◌≡◌, true, map, ◌*◌, ◌≤◌, ◌<◌, length};
ghost use Rattle.model.specs.Format.{accepted, table_of};
ghost use Rattle.model.specs.Register.{point_total};
ghost use Rattle.layout.specs.Places.{layout_of, Small};
ghost use Rattle.spans.specs.Part.{OwnBins, OwnParts};
ghost use Rattle.arrays.specs.Put.{put};
ghost use Rattle.arrays.specs.Flat.{covers, origin, Origins};

use crate::listed::put_point_origins;
use layout::{Layout, layout_of};
use spans::collects::Bins;
use spans::part::{Parts, part_of};

pub mod listed;

// Of point p, whose value bins are among those of `own`, in a table with that layout.
fn put_origins_at(out: &mut [u16], t: &[u8], l: Layout, own: Bins, p: usize)
    requires { (accepted t.now ≡ true) × (l ≡ layout_of t.now) × Small l × (p < point_total (table_of t.now)) × OwnBins t.now p own × (256 * point_total (table_of t.now) ≤ length out.old) }
    ensures { out.new ≡ put (256 * p) (map origin (covers (table_of t.now) p)) out.old }
{
    put_point_origins(out, 256 * p, t, l, own, p as u8);
}

// The value bin that each cover bin comes of: those of point p, whose value bins are those of `parts`, stand from 256 p on.
pub fn put_origins(origins: &mut [u16], t: &[u8], parts: Parts)
    requires { (accepted t.now ≡ true) × (256 * point_total (table_of t.now) ≤ length origins.old) × OwnParts t.now parts }
    ensures { Origins (table_of t.now) origins.new × (length origins.new ≡ length origins.old) }
{
    let l = layout_of(t);
    let n = l.point_count;
    for p in 0..n {
        let own = part_of(parts, p);
        put_origins_at(origins, t, l, own, p);
    }
}
