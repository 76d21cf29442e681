// How many cover bins each point has, by the kinds of its counters.
ghost use Rattle.std.specs.Prelude.{◌≡◌, true, ◌==◌, ◌≤◌, ◌+◌, length, take, count_by};
ghost use Rattle.model.specs.Format.{accepted, table_of};
ghost use Rattle.model.specs.Register.{point_total};
ghost use Rattle.arrays.specs.Put.{put};
ghost use Rattle.arrays.specs.Flat.{cover_counts, point_starts};
ghost use Rattle.points.specs.Gates.{Kinded};

use layout::point_count;

// How many of some counters are cover bins' (kind 0).
fn covers_in(kinds: &[u8]) -> usize
    ensures { result ≡ count_by (λ k. k == 0) kinds.now }
{
    kinds.iter().filter(|k| **k == 0).count()
}

// Those of each of n points.
fn put_each(counts: &mut [u16], t: &[u8], kinds: &[u8], starts: &[u16], n: usize)
    requires t_value { (accepted t.now ≡ true) × (16 ≤ length counts.old) × (17 ≤ length starts.now) × Kinded (table_of t.now) kinds.now }
    requires starts_value { (take (point_total (table_of t.now) + 1) starts.now ≡ point_starts (table_of t.now)) × (n ≡ point_total (table_of t.now)) }
    ensures { counts.new ≡ put 0 (cover_counts (table_of t.now)) counts.old }
{
    for p in 0..n {
        let from = starts[p] as usize;
        let end = starts[p + 1] as usize;
        counts[p] = covers_in(&kinds[from..end]) as u16;
    }
}

// How many cover bins each point has, given the kinds of the points' counters and where each point's begin.
pub fn put_counts(counts: &mut [u16], t: &[u8], kinds: &[u8], starts: &[u16])
    requires t_value { (accepted t.now ≡ true) × (16 ≤ length counts.old) × (17 ≤ length starts.now) × Kinded (table_of t.now) kinds.now }
    requires starts_value { take (point_total (table_of t.now) + 1) starts.now ≡ point_starts (table_of t.now) }
    ensures { counts.new ≡ put 0 (cover_counts (table_of t.now)) counts.old }
{
    let n = point_count(t);
    put_each(counts, t, kinds, starts, n)
}
