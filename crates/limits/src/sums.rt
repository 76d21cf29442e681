// A sum of terms by their places, which stand in a row, size apart.
ghost use Rattle.std.specs.Prelude.{◌≡◌, ℕ, leb, cond, Some, None, IfSome, ◌+◌, ◌*◌, ◌≤◌};
ghost use Rattle.model.specs.Lists.{all};
ghost use Rattle.model.specs.Raw.{rows};
ghost use Rattle.limits.specs.Walks.{walk_sum, after};
ghost use Rattle.limits.specs.Bins.{here};

// The sum of n terms, if none is over a limit.
pub fn sum_within<F: Fn(usize) -> usize>(
    start: usize,
    size: usize,
    n: usize,
    limit: usize,
    term: F,
) -> Option<usize>
    requires start_bound { (start ≤ 16777216) × (size ≤ 20) × (n ≤ 65535) × (limit ≤ 65536) }
    requires callable { (at : ℕ) → at ≤ 100000000 → F.pre term at }
    ensures value { (f : ℕ → ℕ) → ((at y : ℕ) → at ≤ 100000000 → F.post term at y → y ≡ f at)
        → result ≡ cond (all (λ at. leb (f at) limit) (rows here size start n)) (Some (walk_sum 0 f (after size) start n)) None }
    ensures bound { IfSome result (λ sum. sum ≤ limit * n) }
{
    let mut sum: usize = 0;
    let mut at = start;
    for i in 0..n {
        let found = term(at);
        if limit < found {
            return None;
        }
        sum += found;
        at += size;
    }
    Some(sum)
}
