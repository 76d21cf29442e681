// A log between two of its entries, and how it stops.
ghost use Rattle.std.specs.Prelude.{◌≤◌};

use std::io;

// A log as it is taken.
#[derive(Clone, Copy)]
pub struct Log {
    // The points of its samples, and the illegal places.
    pub points: usize,
    pub illegals: usize,
    // The bytes from .. to of its buffer were read, and are not taken yet.
    pub from: usize,
    pub to: usize,
    pub entry: u64,
    ghost points_few: { points ≤ 16 },
    ghost illegals_few: { illegals ≤ 12416 },
    ghost in_order: { from ≤ to },
}

// Why a log goes no further: at its end, within an entry, at a read that failed, at an entry that
// was refused, or at one of no kind, with its first word.
#[derive(Clone, Copy)]
pub enum Stop {
    Ended,
    Cut,
    Unread(io::Error),
    Refused(u32),
    OfNoKind(u32),
}
