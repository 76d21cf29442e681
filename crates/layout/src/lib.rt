// Where the records of each section stand, and how many there are. Past the table's end every byte reads as 0, so that any bytes have a layout.
#![tactic(auto)]

ghost use Rattle.std.specs.Prelude.{◌≡◌, ◌+◌, ◌*◌, ◌≤◌, ◌<◌};
ghost use Rattle.layout.specs.Places.{layout_of, bin_sections_of, transition_section_of, Near, Small, SmallBins};

use words::bytes::read2;

#[derive(Clone, Copy)]
pub struct Section {
    pub at: usize,
    pub count: usize,
}

#[derive(Clone, Copy)]
pub struct Layout {
    pub points: usize,
    pub point_count: usize,
    pub bins: usize,
    pub bin_count: usize,
    pub ranges: usize,
    pub range_count: usize,
    pub transitions: usize,
    pub transition_count: usize,
    pub sequences: usize,
    pub sequence_count: usize,
    pub steps: usize,
    pub step_count: usize,
    pub step_ranges: usize,
    pub step_range_count: usize,
    pub crosses: usize,
    pub cross_count: usize,
    pub cross_bins: usize,
    pub cross_bin_count: usize,
    pub tokens: usize,
    pub token_count: usize,
}

// The value bins and their ranges.
#[derive(Clone, Copy)]
pub struct BinSections {
    pub bins: usize,
    pub bin_count: usize,
    pub ranges: usize,
    pub range_count: usize,
}

// The section whose count stands at place.
fn section_at(t: &[u8], place: usize) -> Section
    requires { place ≤ 100000000 }
    ensures { Near t.now place result }
{
    Section {
        at: place + 2,
        count: usize::from(read2(t, place)),
    }
}

// The section after one whose records have size bytes.
fn next(t: &[u8], before: Section, size: usize) -> Section
    requires { (before.at ≤ 50000000) × (before.count ≤ 65535) × (size ≤ 20) }
    ensures { Near t.now (before.at + before.count * size) result }
{
    section_at(t, before.at + before.count * size)
}

pub fn point_count(t: &[u8]) -> usize
    ensures value { result ≡ (layout_of t.now).point_count }
    ensures upper_bound { result < 65536 }
{
    usize::from(read2(t, 0))
}

// The points, the value bins and their ranges.
#[derive(Clone, Copy)]
struct FirstSections {
    points: Section,
    bins: Section,
    ranges: Section,
}

fn first_sections(t: &[u8]) -> FirstSections
    ensures points { Near t.now 0 result.points }
    ensures bins { Near t.now (result.points.at + result.points.count * 11) result.bins }
    ensures ranges { Near t.now (result.bins.at + result.bins.count * 8) result.ranges }
{
    let points = section_at(t, 0);
    let bins = next(t, points, 11);
    let ranges = next(t, bins, 8);
    FirstSections {
        points,
        bins,
        ranges,
    }
}

pub fn bin_sections(t: &[u8]) -> BinSections
    ensures value { result ≡ bin_sections_of t.now }
    ensures small_bins { SmallBins result }
{
    let f = first_sections(t);
    BinSections {
        bins: f.bins.at,
        bin_count: f.bins.count,
        ranges: f.ranges.at,
        range_count: f.ranges.count,
    }
}

// Where the transition bins stand, and how many there are.
pub fn transition_section(t: &[u8]) -> Section
    ensures value { result ≡ transition_section_of t.now }
    ensures at_bound { (result.at < 16777216) × (result.count < 65536) }
{
    next(t, first_sections(t).ranges, 17)
}

pub fn layout_of(t: &[u8]) -> Layout
    ensures value { result ≡ layout_of t.now }
    ensures small { Small result }
{
    let f = first_sections(t);
    let transitions = next(t, f.ranges, 17);
    let sequences = next(t, transitions, 4);
    let steps = next(t, sequences, 1);
    let step_ranges = next(t, steps, 3);
    let crosses = next(t, step_ranges, 17);
    let cross_bins = next(t, crosses, 13);
    let tokens = next(t, cross_bins, 3);
    Layout {
        points: f.points.at,
        point_count: f.points.count,
        bins: f.bins.at,
        bin_count: f.bins.count,
        ranges: f.ranges.at,
        range_count: f.ranges.count,
        transitions: transitions.at,
        transition_count: transitions.count,
        sequences: sequences.at,
        sequence_count: sequences.count,
        steps: steps.at,
        step_count: steps.count,
        step_ranges: step_ranges.at,
        step_range_count: step_ranges.count,
        crosses: crosses.at,
        cross_count: crosses.count,
        cross_bins: cross_bins.at,
        cross_bin_count: cross_bins.count,
        tokens: tokens.at,
        token_count: tokens.count,
    }
}
