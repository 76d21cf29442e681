// Where the records of a table's items stand.
ghost use Rattle.std.specs.Prelude.{◌<◌};

// The points' records, 11 bytes each, and the crosses', 13 bytes each: where they begin, and how many there are.
#[derive(Clone, Copy)]
pub struct ItemRecords {
    pub points: usize,
    pub point_count: usize,
    pub crosses: usize,
    pub cross_count: usize,
    ghost small: { (points < 16777216) × (point_count < 65536) × (crosses < 16777216) × (cross_count < 65536) },
}
