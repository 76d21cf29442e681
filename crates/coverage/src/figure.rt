// The figures of a register. counters says how many counters the table has.
ghost use Rattle.std.specs.Prelude.{◌≡◌, true, ◌<◌, length};
ghost use Rattle.model.specs.Figures.{item_count};
ghost use Rattle.model.specs.Format.{accepted, table_of};
ghost use Rattle.model.specs.Register.{counter_total, long_enough};
ghost use Rattle.sampling.specs.Index.{Roomy};
ghost use Rattle.coverage.specs.Answers.{item_answer, group_answer, TalliesOf};

use crate::items::{mean, put_leasts};
use figures::Figure;
use layout::point_count;
use sampling::{put_items, put_kinds, put_totals};
use tallies::{ItemTally, tally_all};

// Each item's total, and how many of it are covered, in arrays that have room for the table's counters. labels has the counters' kinds first, then their items.
fn tallies_in(flags: &mut [u8], labels: &mut [u8], t: &[u8], register: &[u32]) -> [ItemTally; 24]
    requires t_value { (accepted t.now ≡ true) × (long_enough (table_of t.now) register.now ≡ true) }
    requires roomy { Roomy (table_of t.now) (length flags.old) × Roomy (table_of t.now) (length labels.old) }
    ensures { TalliesOf (table_of t.now) register.now result }
{
    let x = put_kinds(labels, t);
    put_totals(flags, t, labels, x);
    put_items(labels, t, x);
    let mut leasts = [0u32; 24];
    put_leasts(&mut leasts, t);
    let n = x.counters;
    tally_all(&labels[..n], &flags[..n], &register[2..2 + n], &leasts)
}

// The same in arrays of N elements. It is not inlined: each size has a frame of its own.
#[inline(never)]
fn tallies_with<const N: usize>(t: &[u8], register: &[u32]) -> [ItemTally; 24]
    requires { (accepted t.now ≡ true) × (long_enough (table_of t.now) register.now ≡ true) × Roomy (table_of t.now) N × (N < 65536) }
    ensures { TalliesOf (table_of t.now) register.now result }
{
    let mut flags = [0u8; N];
    let mut labels = [0u8; N];
    tallies_in(&mut flags, &mut labels, t, register)
}

// Each item's total, and how many of it are covered. A small table does not pay for the clearing of large arrays.
pub fn all_tallies(t: &[u8], register: &[u32], counters: usize) -> [ItemTally; 24]
    requires { (accepted t.now ≡ true) × (long_enough (table_of t.now) register.now ≡ true) × (counters ≡ counter_total (table_of t.now)) }
    ensures { TalliesOf (table_of t.now) register.now result }
{
    let points = point_count(t);
    if (counters <= 1024) & (points <= 4) {
        return tallies_with::<1024>(t, register);
    }
    if counters <= 4096 {
        return tallies_with::<4096>(t, register);
    }
    tallies_with::<12416>(t, register)
}

// An item's figure.
pub fn item_figure(t: &[u8], register: &[u32], item: usize, counters: usize) -> Figure
    requires { (accepted t.now ≡ true) × (long_enough (table_of t.now) register.now ≡ true) × (counters ≡ counter_total (table_of t.now)) × (item < item_count (table_of t.now)) }
    ensures { result ≡ item_answer (table_of t.now) register.now item }
{
    let tallies = all_tallies(t, register, counters);
    let own = tallies[item];
    figures::item_figure(own.covered, own.total)
}

// The group's figure.
pub fn group_figure(t: &[u8], register: &[u32], counters: usize) -> Option<u32>
    requires { (accepted t.now ≡ true) × (long_enough (table_of t.now) register.now ≡ true) × (counters ≡ counter_total (table_of t.now)) }
    ensures { result ≡ group_answer (table_of t.now) register.now }
{
    let tallies = all_tallies(t, register, counters);
    mean(t, &tallies)
}
