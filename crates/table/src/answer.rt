// What is said of an accepted table.

// The words of a register and of a report.
#[derive(Clone, Copy)]
pub struct Measure {
    pub words: u32,
    pub illegal_places: u32,
}

// Its points, counters, run words and illegal counters.
#[derive(Clone, Copy)]
pub struct Facts {
    pub points: usize,
    pub counters: usize,
    pub runs: usize,
    pub illegals: usize,
}
