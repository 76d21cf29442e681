// The report: which of the illegal counters are hit, by lists of places.
ghost use Rattle.std.specs.Prelude.{◌≡◌, true, ◌≤◌, ◌<◌, length, get_or, drop};
ghost use Rattle.model.specs.Lists.{one_of};
ghost use Rattle.arrays.specs.Put.{put};
ghost use Rattle.places.specs.Places.{ascending};
ghost use Rattle.samples.specs.Listed.{hit_bits, Passed};

use arrays::as_bit;

// The first hit from number from on whose place is not below k.
fn seek(hits: &[u16], from: usize, k: u16) -> usize
    requires { from ≤ length hits.now }
    ensures { Passed hits.now k from result }
{
    let n = hits.len();
    let mut j = from;
    while j < n {
        if k <= hits[j] {
            return j;
        }
        j += 1;
    }
    j
}

// The hit at j is at place k.
fn is_at(hits: &[u16], j: usize, k: u16) -> bool
    requires { (j < length hits.now → k ≤ get_or hits.now j 0) × (ascending 0 hits.now ≡ true) }
    ensures { result ≡ one_of k (drop j hits.now) }
{
    if j < hits.len() {
        return hits[j] == k;
    }
    false
}

// A word for each illegal place: 1 if it is hit. Both lists ascend.
pub fn report_listed(report: &mut [u32], illegals: &[u16], hits: &[u16])
    requires { (length illegals.now ≤ length report.old) × (ascending 0 illegals.now ≡ true) × (ascending 0 hits.now ≡ true) }
    ensures { report.new ≡ put 0 (hit_bits illegals.now hits.now) report.old }
{
    let n = illegals.len();
    let mut j = 0;
    for i in 0..n {
        let k = illegals[i];
        j = seek(hits, j, k);
        let b = is_at(hits, j, k);
        report[i] = as_bit(b) as u32;
    }
}
