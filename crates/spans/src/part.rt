// The parts of a table's value bins from the first to the last of each point.
ghost use Rattle.std.specs.Prelude.{◌≡◌, true, ◌<◌, ◌≤◌};
ghost use Rattle.model.specs.Format.{accepted};
ghost use Rattle.spans.specs.Part.{added, part_of, OwnParts};

use crate::collects::Bins;
use layout::bin_sections;
use words::bytes::{byte, read2};
use words::choices::pick;

// The value bins of the table from a point's first to its last one: where they begin, where their ranges do, and how many they are.
#[derive(Clone, Copy)]
pub struct Part {
    pub bins: u32,
    pub ranges: u32,
    pub count: u32,
}

// Those of each point.
#[derive(Clone, Copy)]
pub struct Parts {
    pub own: [Part; 16],
}

impl Part {
    // The bin at a, its ranges from r on, is the point's next one.
    fn add(&mut self, a: u32, r: u32)
        requires { (a < 1000000000) × (self.old.bins ≤ a) }
        ensures { self.new ≡ added self.old a r }
    {
        let fresh = self.count == 0;
        let first = pick(fresh, a, self.bins);
        self.bins = first;
        self.ranges = pick(fresh, r, self.ranges);
        self.count = (a - first) / 8 + 1;
    }
}

// The value bins of the table from the first to the last of each point, found in one pass.
pub fn own_parts(t: &[u8]) -> Parts
    requires { accepted t.now ≡ true }
    ensures { OwnParts t.now result }
{
    let l = bin_sections(t);
    let n = l.bin_count;
    let mut a = l.bins as u32;
    let mut r = l.ranges as u32;
    let none = Part {
        bins: a,
        ranges: r,
        count: 0,
    };
    let mut own = [none; 16];
    for i in 0..n {
        let q = byte(t, a as usize) as usize;
        own[q].add(a, r);
        r += 17 * (read2(t, a as usize + 6) as u32);
        a += 8;
    }
    Parts { own }
}

// Those of point p.
pub fn part_of(x: Parts, p: usize) -> Bins
    requires { p < 16 }
    ensures { result ≡ part_of x p }
{
    let own = x.own[p];
    Bins {
        bins: own.bins as usize,
        ranges: own.ranges as usize,
        count: own.count as usize,
    }
}
