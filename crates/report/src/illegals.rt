// The lines of illegal places: as they are raised, and their totals.
ghost use Rattle.std.specs.Prelude.{◌<◌, ◌≤◌};

use crate::Subject;
use crate::counters::count_of;
use crate::kinds::CounterKind;
use std::fmt;
use std::fmt::Write;
use streams::out::Out;
use values::fields::word;

// How often an illegal place's line is shown.
const SHOWN: u16 = 10;

// The illegal places that there can be.
const ILLEGALS: usize = 12416;

// The places of the first count illegal ones, and how often the line of each was shown.
#[derive(Drop)]
pub struct Illegals {
    pub places: [u16; ILLEGALS],
    pub shown: [u16; ILLEGALS],
    pub count: usize,
    ghost few: { count ≤ 12416 },
}

// A sample: its number among the samples, and its entry's.
#[derive(Clone, Copy)]
pub struct Sample {
    pub number: u64,
    pub entry: u64,
}

impl Illegals {
    // Whether the line of the i-th illegal place is to be shown; if so, it counts as shown.
    fn shows(&mut self, i: usize) -> bool
        requires { i < 12416 }
    {
        if self.shown[i] >= SHOWN {
            return false;
        }
        self.shown[i] += 1;
        true
    }

    // The report of a sample, which begins at a word of the reports: it has a word for each illegal place.
    fn say_sample(
        &mut self,
        out: &mut Out,
        reports: &[u32],
        at: usize,
        sample: Sample,
    ) -> fmt::Result
        requires { at < 4294967296 }
    {
        let Sample { number, entry } = sample;
        for i in 0..self.count {
            if word(reports, at + i) != 0 && self.shows(i) {
                let place = self.places[i];
                writeln!(
                    out,
                    "illegal place {place} raised at sample {number} (entry {entry})"
                )?;
            }
        }
        Ok(())
    }

    // The reports of the samples of a block that were taken, of which the first is given.
    pub fn say_reports(
        &mut self,
        out: &mut Out,
        reports: &[u32],
        taken: usize,
        first: Sample,
    ) -> fmt::Result
        requires { (taken ≤ 9216) × (first.number ≤ 4294967296) × (first.entry < 18446744073709486080) }
    {
        let mut at = 0;
        for i in 0..taken {
            let k = i as u64;
            let sample = Sample {
                number: first.number + k,
                entry: first.entry + k,
            };
            self.say_sample(out, reports, at, sample)?;
            at += self.count;
        }
        Ok(())
    }
}

// How often each illegal place was raised, of those that were.
pub fn say_totals(out: &mut Out, s: &Subject) -> fmt::Result {
    for (place, kind) in s.kinds.iter().enumerate() {
        let count = count_of(s.register, place);
        if count != 0 && CounterKind::from(*kind).is_illegal() {
            let shown = count.min(u32::from(SHOWN));
            writeln!(out, "illegal place {place} total: {count} ({shown} shown)")?;
        }
    }
    Ok(())
}
