// Calls each function of the report that tells whether it wrote. The exit status has a bit for each that answered Err; it is 255 if the table is refused.
#![tactic(auto)]

ghost use Rattle.std.specs.Prelude.{◌≡◌, true};
ghost use Rattle.model.specs.Format.{accepted};

use report::ending::say_ending;
use report::illegals::{Illegals, Sample, say_totals};
use report::{Subject, say_report};
use sample_log::state::Stop;
use std::fmt;
use std::process::ExitCode;
use streams::help::has_arg;
use streams::out::Out;
use table::facts;

// A point of width 1, of which 1 is illegal: place 0 is the illegal bin, 1 and 2 are the auto bins.
const TABLE: [u8; 56] = [
    1, 0, 1, 0, 255, 1, 0, 1, 0, 0, 0, 64, 0, 1, 0, 0, 2, 0, 0, 0, 255, 1, 0, 1, 0, 0, 1, 0, 0, 0,
    0, 0, 0, 0, 1, 0, 0, 0, 0, 0, 0, 0, 0, 0, 0, 0, 0, 0, 0, 0, 0, 0, 0, 0, 0, 0,
];

// Three samples, of which two had 1 and one 0.
const REGISTER: [u32; 6] = [1, 3, 2, 1, 0, 0];

const KINDS: [u8; 3] = [2, 0, 0];

// So many calls fill an output's buffer, whichever function is called.
const MANY: u32 = 2000;

// Place 0 was raised by the first and the third of three samples.
fn reports(out: &mut Out) -> fmt::Result {
    let mut illegals = Illegals {
        places: [0; 12416],
        shown: [0; 12416],
        count: 1,
    };
    let first = Sample {
        number: 1,
        entry: 2,
    };
    illegals.say_reports(out, &[1, 0, 1], 3, first)
}

// Whether one of so many calls of a function, on an output of their own, answered Err.
fn fails<F: FnMut(&mut Out) -> fmt::Result>(rt: &HostRuntime, calls: u32, mut call: F) -> bool
    requires { F.IsAlwaysCallable call }
{
    let mut out = Out::new(rt);
    for _ in 0..calls {
        if call(&mut out).is_err() {
            return true;
        }
    }
    out.flush();
    false
}

// A bit for each function of which one of so many calls answered Err.
fn failed(rt: &HostRuntime, s: &Subject, calls: u32) -> u8
    requires { accepted s.now.table.now ≡ true }
{
    let of_reports = fails(rt, calls, reports);
    let of_totals = fails(rt, calls, |out: &mut Out| say_totals(out, s));
    let of_report = fails(rt, calls, |out: &mut Out| say_report(out, s));
    let of_ending = fails(
        rt,
        calls,
        |out: &mut Out| say_ending(out, 5, Some(Stop::Cut)),
    );
    u8::from(of_reports)
        | u8::from(of_totals) << 1
        | u8::from(of_report) << 2
        | u8::from(of_ending) << 3
}

// Each is called once; with an argument so often that its buffer fills and is written.
fn main(rt: HostRuntime) -> ExitCode {
    let s = Subject {
        table: &TABLE,
        register: &REGISTER,
        kinds: &KINDS,
        points: 1,
    };
    match facts(s.table) {
        Ok(_) => {
            let calls = if has_arg(&rt, 1) { MANY } else { 1 };
            ExitCode::from(failed(&rt, &s, calls))
        }
        Err(_) => ExitCode::from(255),
    }
}
