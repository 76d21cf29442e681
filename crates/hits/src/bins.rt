// The places of a point's value bins and auto bins that a sample hits.
ghost use Rattle.std.specs.Prelude.{◌≡◌, true, ◌<◌, ◌≤◌, length};
ghost use Rattle.model.specs.Sampling.{reading};
ghost use Rattle.model.specs.Format.{accepted, table_of};
ghost use Rattle.model.specs.Register.{point_total, in_widths};
ghost use Rattle.arrays.specs.Put.{put};
ghost use Rattle.arrays.specs.Flat.{covers, reading_code};
ghost use Rattle.hits.specs.Places.{value_places, FoundOf, PlacesOf, PlainsOf};

use crate::covers::put_found;
use crate::plains::put_plain_hits;
use arrays::reading::Reading;
use layout::layout_of;
use points::readings::PointReading;

// Where cover bins are hit, no default bin or illegal bin is. found: the point's cover bins that are hit; places and plains: those of all its cover bins and of its plain bins.
pub fn put_value_hits(
    hits: &mut [u16],
    t: &[u8],
    sample: &[u32],
    found: &[u16],
    places: &[u16],
    plains: &[u16],
    own: PointReading,
) -> usize
    requires t_value { (accepted t.now ≡ true) × (in_widths (table_of t.now) sample.now ≡ true) × (own.point < point_total (table_of t.now)) × (own.reading ≡ reading_code (reading (table_of t.now) sample.now own.point)) × (256 ≤ length hits.old) }
    requires in_bounds { (1 ≤ length found.now) × FoundOf (table_of t.now) sample.now own.point found.now × (length (covers (table_of t.now) own.point) ≤ length places.now) × PlacesOf (table_of t.now) own.point places.now × PlainsOf (table_of t.now) own.point plains.now }
    ensures { (result ≡ length (value_places (table_of t.now) sample.now own.point)) × (hits.new ≡ put 0 (value_places (table_of t.now) sample.now own.point) hits.old) }
{
    let n = found[0] as usize;
    if n != 0 {
        return put_found(hits, found, places, n);
    }
    if plains.is_empty() {
        return 0;
    }
    let Reading::Known(value) = own.reading else {
        return 0;
    };
    let l = layout_of(t);
    put_plain_hits(hits, t, l, sample, plains, own.point, value)
}
