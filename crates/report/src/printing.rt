// `say_report`, `say_ending`, `say_totals` and `say_reports` for a caller that does nothing about a write that failed.
ghost use Rattle.std.specs.Prelude.{◌≡◌, ◌<◌, ◌≤◌, true};
ghost use Rattle.model.specs.Format.{accepted};

use crate::ending::say_ending;
use crate::illegals::{Illegals, Sample, say_totals};
use crate::{Subject, say_report};
use sample_log::state::Stop;
use streams::out::Out;

pub fn print_report(out: &mut Out, s: &Subject)
    requires { accepted s.now.table.now ≡ true }
{
    let _ = say_report(out, s);
}

pub fn print_ending(out: &mut Out, entry: u64, stop: Option<Stop>) {
    let _ = say_ending(out, entry, stop);
}

pub fn print_totals(out: &mut Out, s: &Subject) {
    let _ = say_totals(out, s);
}

impl Illegals {
    pub fn print_reports(&mut self, out: &mut Out, reports: &[u32], taken: usize, first: Sample)
        requires { (taken ≤ 9216) × (first.number ≤ 4294967296) × (first.entry < 18446744073709486080) }
    {
        let _ = self.say_reports(out, reports, taken, first);
    }
}
