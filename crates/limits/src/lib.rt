// Refusal 6 and measuring: the counters and the products of a table are counted in one pass, never listed.
#![tactic(auto)]

pub mod answer;
mod bins;
mod crosses;
mod entries;
mod kinds;
mod points;
mod sums;
mod transitions;

ghost use Rattle.std.specs.Prelude.{◌≡◌, ◌≤◌};
ghost use Rattle.model.specs.Raw.{raw_table};
ghost use Rattle.model.specs.Register.{illegal_total};
ghost use Rattle.limits.specs.Walks.{Readable, Laid, value_illegals, cross_illegals};
ghost use Rattle.limits.specs.Tallies.{Tallied, Counted, counters_within};

use crate::answer::Tally;
use crate::crosses::product_sum;
use crate::entries::Counts;
use crate::kinds::{count_kind, cross_kinds, mosts};
use crate::points::{count_points, point_sum};
use layout::{Layout, layout_of};
use words::kinds::Kind;

// All counters, if at most 256 are a point's and at most 1,024 products a cross's. illegals: the crosses' illegal bins.
fn counter_total(counts: &Counts, t: &[u8], l: Layout, illegals: usize) -> Option<usize>
    requires readable { Laid t.now l }
    requires counted { Counted t.now counts.now.covers counts.now.singles × (illegals ≡ cross_illegals t.now l) × (illegals ≤ 4294967296) }
    ensures { result ≡ counters_within (raw_table t.now) }
{
    let points = point_sum(counts, l.point_count)?;
    let products = product_sum(&counts.covers, t, l)?;
    let bins = cross_kinds(t, l, Kind::Cover);
    Some(points + (bins + illegals + products))
}

// The illegal counters: those of value bins, of transition bins and of crosses, the words of a report.
fn illegal_total(t: &[u8], l: Layout, values: usize, crosses: usize) -> usize
    requires readable { Laid t.now l }
    requires values_value { (values ≡ value_illegals t.now l) × (values ≤ 512) × (crosses ≡ cross_illegals t.now l) × (crosses ≤ 4294967296) }
    ensures { result ≡ illegal_total (raw_table t.now) }
{
    let transitions = count_kind(t, l.transitions + 1, 4, l.transition_count, Kind::Illegal);
    values + transitions + crosses
}

pub fn tally(t: &[u8]) -> Tally
    requires { Readable t.now }
    ensures { Tallied (raw_table t.now) result }
{
    let l = layout_of(t);
    let mut counts = Counts {
        covers: [0; 16],
        singles: [0; 16],
        bars: [0; 16],
    };
    let values = count_points(&mut counts, t, l);
    let crosses = cross_kinds(t, l, Kind::Illegal);
    Tally {
        counters: counter_total(&counts, t, l, crosses),
        runs: mosts(t, l),
        illegals: illegal_total(t, l, values, crosses),
    }
}
