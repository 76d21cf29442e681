// What a table counts: its counters, if the limits of refusal 6 hold; the run words and the illegal counters.
#[derive(Clone, Copy)]
pub struct Tally {
    pub counters: Option<usize>,
    pub runs: usize,
    pub illegals: usize,
}
