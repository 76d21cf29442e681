// The counts after a sample, by the places that it hits.
ghost use Rattle.std.specs.Prelude.{◌≡◌, true, List, ℕ, ◌<◌, ◌≤◌, length};
ghost use Rattle.model.proofs.Readers.{All};
ghost use Rattle.arrays.specs.Put.{put};
ghost use Rattle.places.specs.Places.{ascending, is_set, places_from};
ghost use Rattle.samples.specs.Writes.{counts_after, Countable};

use crate::adds::add_unknowns;
use arrays::reading::Reading;
use places::raises::raise_each;

// One sample more; the counts at the places and the unknown counts rise.
pub fn raise_counts(
    register: &mut [u32],
    hits: &[u16],
    readings: &[Reading],
    counters: usize,
    points: usize,
)
    requires { Countable counters points register.old × (points ≤ length readings.now) × (ascending 0 hits.now ≡ true) × All (λ x. x < counters) hits.now }
    ensures { (fs : List ℕ) → length fs ≡ counters → hits.now ≡ places_from is_set 0 fs → register.new ≡ put 1 (counts_after counters points fs readings.now register.old) register.old }
{
    register[1] = register[1] + 1;
    raise_each(register, 2, hits);
    add_unknowns(register, 2 + counters, readings, points);
}
