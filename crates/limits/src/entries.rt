// Numbers for each point.
ghost use Rattle.std.specs.Prelude.{◌≡◌, ◌+◌, ◌<◌, length, get_or};
ghost use Rattle.limits.specs.Bins.{more};

// The cover bins and the other counters of each point; and the bins that bar its auto bins.
// Not an array of structs: a pass over bins adds to one of the numbers, and `added` and the sums over points speak of lists of numbers.
#[derive(Clone, Copy)]
pub struct Counts {
    pub covers: [u32; 16],
    pub singles: [u32; 16],
    pub bars: [u32; 16],
}

// Past the last point every entry reads as 0.
pub fn entry(l: &[u32], p: usize) -> usize
    ensures { (result ≡ get_or l.now p 0) × (result < 4294967296) }
{
    l.get(p).copied().unwrap_or(0) as usize
}

pub fn add(l: &mut [u32], p: usize, x: u32)
    requires { (p < length l.old) × (get_or l.old p 0 + x < 4294967296) }
    ensures { l.new ≡ more p x l.old }
{
    l[p] += x;
}
