// The places of the cover bins that are hit.
ghost use Rattle.std.specs.Prelude.{◌≡◌, ◌<◌, ◌≤◌, length, take, drop};
ghost use Rattle.arrays.specs.Put.{put};
ghost use Rattle.hits.specs.Places.{elements_at, Inside};

// The places of n cover bins, whose numbers stand in found after their count.
pub fn put_found(hits: &mut [u16], found: &[u16], places: &[u16], n: usize) -> usize
    requires { (n ≤ length hits.old) × (n < length found.now) × (n ≤ 65535) × Inside found.now n (length places.now) }
    ensures { (result ≡ n) × (hits.new ≡ put 0 (elements_at places.now (take n (drop 1 found.now))) hits.old) }
{
    for i in 0..n {
        let k = found[1 + i] as usize;
        hits[i] = places[k];
    }
    n
}
