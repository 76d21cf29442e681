// What the marks of listed products say together, and the places of the products that no bin selects.
ghost use Rattle.std.specs.Prelude.{◌≡◌, ◌+◌, ◌≤◌, length};
ghost use Rattle.arrays.specs.Put.{put};
ghost use Rattle.products.specs.Marks.{Below};
ghost use Rattle.crosshits.specs.Listed.{list_marks, own_places};

use arrays::element;
use crosses::own::own_mark;
use places::put_if;

// The marks of the listed products that no bin of the mask selects. That of product x stands at start + x.
pub fn marks_of(list: &[u16], plan: &[u16], start: usize, mask: u16) -> u16
    requires { start ≤ 65536 }
    ensures { result ≡ list_marks mask plan.now start list.now }
{
    let mut own: u16 = 0;
    for x in list {
        own |= own_mark(1, element(plan, start + *x as usize), mask);
    }
    own
}

// Where the next place stands, the counter of product 0, and where the mark of product 0 stands.
#[derive(Clone, Copy)]
pub struct Products {
    pub at: usize,
    pub first: usize,
    pub start: usize,
}

// The places of the listed products that no bin selects. Answers where the next one stands.
pub fn put_own(hits: &mut [u16], list: &[u16], plan: &[u16], x: Products) -> usize
    requires { (x.start ≤ 65536) × (x.at + length list.now ≤ length hits.old) × (x.first ≤ 64511) × Below (length list.now) 1024 list.now }
    ensures { (result ≡ x.at + length (own_places plan.now x.start x.first list.now)) × (hits.new ≡ put x.at (own_places plan.now x.start x.first list.now) hits.old) }
{
    let first = x.first;
    let start = x.start;
    let mut c = x.at;
    for y in list {
        let y = *y as usize;
        let m = element(plan, start + y);
        c = put_if(hits, c, m == 0, first + y);
    }
    c
}
