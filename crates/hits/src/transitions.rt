// The places of a point's transition bins that a sample hits.
ghost use Rattle.std.specs.Prelude.{◌≡◌, ◌<◌, ◌≤◌, ◌+◌, length, take};
ghost use Rattle.model.specs.Counters.{transition_counters};
ghost use Rattle.model.specs.Sampling.{reading};
ghost use Rattle.model.specs.Format.{table_of};
ghost use Rattle.model.specs.Register.{point_total};
ghost use Rattle.arrays.specs.Put.{put};
ghost use Rattle.arrays.specs.Flat.{reading_code};
ghost use Rattle.points.specs.Hits.{Sampled};
ghost use Rattle.hits.specs.Places.{any_length, transition_start, transition_places};

use layout::Layout;
use places::put_set;
use points::readings::PointReading;
use points::transitions::put_transitions;

// Some bin has a matched length.
pub fn any_length(lens: &[u32]) -> bool
    ensures { result ≡ any_length lens.now }
{
    let mut some = false;
    for x in lens {
        some |= *x != 0;
    }
    some
}

// By the places of the layout. lens: the matched lengths of each transition bin; end: where the counters of the point's transition bins end.
pub fn put_transition_hits(
    hits: &mut [u16],
    t: &[u8],
    l: Layout,
    sample: &[u32],
    lens: &[u32],
    own: PointReading,
    end: usize,
) -> usize
    requires { (Sampled t.now l sample.now) × (own.point < point_total (table_of t.now)) × (own.reading ≡ reading_code (reading (table_of t.now) sample.now own.point)) × (64 ≤ length lens.now) × (64 ≤ length hits.old) × (end ≡ transition_start (table_of t.now) own.point + length (transition_counters own.point 0 (table_of t.now).transition_bins)) }
    ensures { (result ≡ length (transition_places (table_of t.now) sample.now (take (length (table_of t.now).transition_bins) lens.now) own.point)) × (hits.new ≡ put 0 (transition_places (table_of t.now) sample.now (take (length (table_of t.now).transition_bins) lens.now) own.point) hits.old) }
{
    let mut flags = [0u8; 64];
    let n = put_transitions(&mut flags, 0, t, l, sample, lens, own);
    put_set(hits, &flags[..n], end - n)
}
