// The report on a register. Err is a write that failed, now or before; the output itself tells it.
#![tactic(auto)]

mod counters;
pub mod ending;
pub mod illegals;
mod items;
mod kinds;
pub mod printing;

ghost use Rattle.std.specs.Prelude.{◌≡◌, true};
ghost use Rattle.model.specs.Format.{accepted};

use crate::counters::say_counters;
use crate::illegals::say_totals;
use crate::items::{say_group, say_items, say_unknowns};
use layout::layout_of;
use std::fmt;
use std::fmt::Write;
use streams::out::Out;
use values::fields::word;

// What a report is on: a table, a register of it, the kind of each place, and how many points there are.
#[derive(Clone, Copy)]
pub struct Subject<'a> {
    pub table: &'a [u8],
    pub register: &'a [u32],
    pub kinds: &'a [u8],
    pub points: usize,
}

fn say_state(out: &mut Out, register: &[u32]) -> fmt::Result {
    let samples = word(register, 1);
    if word(register, 0) == 1 {
        writeln!(out, "samples {samples}, running")
    } else {
        writeln!(out, "samples {samples}, stopped")
    }
}

// All lines but the last.
pub fn say_report(out: &mut Out, s: &Subject) -> fmt::Result
    requires { accepted s.now.table.now ≡ true }
{
    let l = layout_of(s.table);
    say_totals(out, s)?;
    say_state(out, s.register)?;
    say_counters(out, s)?;
    say_unknowns(out, s)?;
    say_items(out, s, l.point_count + l.cross_count)?;
    say_group(out, s)
}
