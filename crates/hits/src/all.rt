// The places of all points' counters that a sample hits.
ghost use Rattle.std.specs.Prelude.{◌≡◌, true, false, IfSome, IfNone, ◌<◌, ◌≤◌, ◌+◌, ◌*◌, length, take, drop};
ghost use Rattle.model.specs.Sampling.{reading};
ghost use Rattle.model.specs.Format.{accepted, table_of};
ghost use Rattle.model.specs.Register.{point_total, in_widths, run_stretches};
ghost use Rattle.arrays.specs.Put.{put};
ghost use Rattle.arrays.specs.Flat.{all_point_counters, point_starts, reading_code, Readings};
ghost use Rattle.places.specs.Places.{Found, PlaceRows};
ghost use Rattle.layout.specs.Places.{layout_of};
ghost use Rattle.hits.specs.Places.{value_places, all_places, any_length};

use crate::bins::put_value_hits;
use crate::transitions::{any_length, put_transition_hits};
use arrays::reading::Reading;
use layout::{Layout, layout_of, point_count};
use points::readings::PointReading;

// Those of a point's value bins and auto bins, from at on. found and rows have a row of 257 and one of 258 elements for each point.
fn put_values(
    hits: &mut [u16],
    at: usize,
    t: &[u8],
    sample: &[u32],
    found: &[u16],
    rows: &[u16],
    own: PointReading,
) -> usize
    requires t_value { (accepted t.now ≡ true) × (in_widths (table_of t.now) sample.now ≡ true) × (own.point < point_total (table_of t.now)) × (own.reading ≡ reading_code (reading (table_of t.now) sample.now own.point)) × (at + 256 ≤ length hits.old) }
    requires found { Found (table_of t.now) sample.now found.now × (257 * point_total (table_of t.now) ≤ length found.now) × PlaceRows (table_of t.now) rows.now × (258 * point_total (table_of t.now) ≤ length rows.now) }
    ensures { (result ≡ at + length (value_places (table_of t.now) sample.now own.point)) × (hits.new ≡ put at (value_places (table_of t.now) sample.now own.point) hits.old) }
{
    let p = own.point as usize;
    let row = 258 * p;
    let q = rows[row] as usize;
    let c = rows[row + 1] as usize;
    let from = row + 2 + c;
    let to = from + q;
    let n = put_value_hits(
        &mut hits[at..],
        t,
        sample,
        &found[257 * p..],
        &rows[row + 2..],
        &rows[from..to],
        own,
    );
    at + n
}

// The table's layout, where some transition bin has a matched length: else none of them is hit, and the layout isn't needed.
fn matched_layout(t: &[u8], lens: &[u32]) -> Option<Layout>
    ensures some { IfSome result (λ l. l ≡ layout_of t.now) }
    ensures none { IfNone result (any_length lens.now ≡ false) }
{
    if any_length(lens) {
        Some(layout_of(t))
    } else {
        None
    }
}

// Those of all points' counters: how many there are. After its rows, rows has where each point's counters begin, and where the last one's end.
pub fn put_point_hits(
    hits: &mut [u16],
    t: &[u8],
    sample: &[u32],
    readings: &[Reading],
    lens: &[u32],
    found: &[u16],
    rows: &[u16],
) -> usize
    requires t_value { (accepted t.now ≡ true) × Readings (table_of t.now) sample.now readings.now × (16 ≤ length readings.now) × (64 ≤ length lens.now) × (length (all_point_counters (table_of t.now)) + 256 ≤ length hits.old) }
    requires found { Found (table_of t.now) sample.now found.now × (257 * point_total (table_of t.now) ≤ length found.now) × PlaceRows (table_of t.now) rows.now × (take (point_total (table_of t.now) + 1) (drop (258 * point_total (table_of t.now)) rows.now) ≡ point_starts (table_of t.now)) × (258 * point_total (table_of t.now) + 17 ≤ length rows.now) }
    ensures { (result ≡ length (all_places (table_of t.now) sample.now (run_stretches (take (length (table_of t.now).transition_bins) lens.now)))) × (hits.new ≡ put 0 (all_places (table_of t.now) sample.now (run_stretches (take (length (table_of t.now).transition_bins) lens.now))) hits.old) }
{
    let n = point_count(t);
    let matched = matched_layout(t, lens);
    let mut at = 0;
    for p in 0..n {
        let own = PointReading {
            point: p as u8,
            reading: readings[p],
        };
        at = put_values(hits, at, t, sample, found, rows, own);
        if let Some(l) = matched {
            let end = rows[258 * n + p + 1] as usize;
            at += put_transition_hits(&mut hits[at..], t, l, sample, lens, own, end);
        }
    }
    at
}
