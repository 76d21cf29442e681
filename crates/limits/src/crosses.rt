// The products of crosses, by the cover bins of each point.
ghost use Rattle.std.specs.Prelude.{◌≡◌, ◌*◌, ◌≤◌, cond, Some, None, IfSome};
ghost use Rattle.model.specs.Lists.{all};
ghost use Rattle.model.specs.Raw.{rows};
ghost use Rattle.layout.specs.Places.{Small};
ghost use Rattle.limits.specs.Walks.{walk_sum, after};
ghost use Rattle.limits.specs.Bins.{here, cross_products, cross_fits};

use crate::entries::entry;
use crate::sums::sum_within;
use layout::Layout;
use words::bytes::byte;

// The products of the cross at c; 1025 if there are more than 1,024.
fn cross_products(covers: &[u32], t: &[u8], c: usize) -> usize
    requires { c ≤ 1000000000 }
    ensures { (result ≡ cross_products covers.now t.now c) × (result ≤ 1025) }
{
    let n = usize::from(byte(t, c));
    let mut product: usize = 1;
    for i in 0..n {
        let p = usize::from(byte(t, c + 1 + i));
        let found = entry(covers, p);
        product = (product * found).min(1025);
    }
    product
}

// The products of all crosses, if none has more than 1,024.
pub fn product_sum(covers: &[u32], t: &[u8], l: Layout) -> Option<usize>
    requires { Small l }
    ensures value { result ≡ cond (all (cross_fits covers.now t.now) (rows here 13 l.crosses l.cross_count)) (Some (walk_sum 0 (cross_products covers.now t.now) (after 13) l.crosses l.cross_count)) None }
    ensures bound { IfSome result (λ sum. sum ≤ 1024 * l.cross_count) }
{
    sum_within(
        l.crosses,
        13,
        l.cross_count,
        1024,
        |c| cross_products(covers, t, c),
    )
}
