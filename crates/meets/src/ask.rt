// What is asked of a point's pieces.
ghost use Rattle.std.specs.Prelude.{◌<◌, ◌≤◌};

// The lowest value of the point's type, two values of it, and how many parts the point has.
#[derive(Clone, Copy)]
pub struct Ask {
    pub low: u64,
    pub lo: u64,
    pub hi: u64,
    pub parts: usize,
    ghost wide: { (low ≤ lo) × (lo < 8589934592) × (hi < 8589934592) },
}
