// The auto bins of the points, and the counters of all of them.
ghost use Rattle.std.specs.Prelude.{◌≡◌, ◌+◌, ◌*◌, ◌≤◌, ◌<◌, cond, Some, None, IfSome};
ghost use Rattle.model.specs.Lists.{all};
ghost use Rattle.model.specs.Counters.{auto_count};
ghost use Rattle.model.specs.Format.{point_record};
ghost use Rattle.model.specs.Raw.{rows};
ghost use Rattle.ranges.specs.Types.{Wide, AllWide};
ghost use Rattle.layout.specs.Places.{Small};
ghost use Rattle.limits.specs.Walks.{Laid, walk_sum, after, value_illegals};
ghost use Rattle.limits.specs.Bins.{added, Entries, here, autos_at, counters_in, point_fits};
ghost use Rattle.limits.specs.Tallies.{Counted};

use crate::bins::add_bins;
use crate::entries::{Counts, add, entry};
use crate::sums::sum_within;
use crate::transitions::add_transitions;
use layout::Layout;
use ranges::{power, type_at};
use words::bytes::read2;

// How many auto bins the point whose record is at point has, if it has any.
fn auto_count(t: &[u8], point: usize) -> usize
    requires { (point ≤ 1000000000) × Wide t.now point }
    ensures { (result ≡ auto_count (point_record t.now point)) × (result ≤ 65535) }
{
    let all = power(type_at(t, point).width) as usize;
    let most = usize::from(read2(t, point + 9));
    all.min(most)
}

// The auto bins of point p.
fn autos_at(t: &[u8], bars: &[u32], points: usize, p: usize) -> u32
    requires { (points ≤ 16777216) × (p < 16) × Wide t.now (points + 11 * p) }
    ensures { (result ≡ autos_at t.now points bars.now p) × (result ≤ 65535) }
{
    if entry(bars, p) != 0 {
        return 0;
    }
    auto_count(t, points + 11 * p) as u32
}

// The auto bins of all points.
fn add_autos(counts: &mut Counts, t: &[u8], l: Layout)
    requires { Small l × (l.point_count ≤ 16) × AllWide t.now l.points l.point_count × Entries 40000000 counts.old.covers }
    ensures covers_after { counts.new.covers ≡ added here (autos_at t.now l.points counts.old.bars) (rows here 1 0 l.point_count) counts.old.covers }
    ensures singles { counts.new.singles ≡ counts.old.singles }
    ensures entries { Entries (40000000 + 65535 * l.point_count) counts.new.covers }
{
    for i in 0..l.point_count {
        let found = autos_at(t, &counts.bars, l.points, i);
        add(&mut counts.covers, i, found);
    }
}

// The cover bins and the other counters of every point; and how many value bins are illegal bins.
pub fn count_points(counts: &mut Counts, t: &[u8], l: Layout) -> usize
    requires readable { Laid t.now l }
    requires entries { Entries 0 counts.old.covers × Entries 0 counts.old.singles × Entries 0 counts.old.bars }
    ensures { Counted t.now counts.new.covers counts.new.singles × (result ≡ value_illegals t.now l) × (result ≤ 512) }
{
    let illegals = add_bins(counts, t, l);
    add_transitions(counts, t, l);
    add_autos(counts, t, l);
    illegals
}

// The counters of n points, if none has more than 256.
pub fn point_sum(counts: &Counts, n: usize) -> Option<usize>
    requires { n ≤ 65535 }
    ensures value { result ≡ cond (all (point_fits counts.now.covers counts.now.singles) (rows here 1 0 n)) (Some (walk_sum 0 (counters_in counts.now.covers counts.now.singles) (after 1) 0 n)) None }
    ensures bound { IfSome result (λ sum. sum ≤ 256 * n) }
{
    sum_within(
        0,
        1,
        n,
        256,
        |p| entry(&counts.covers, p) + entry(&counts.singles, p),
    )
}
