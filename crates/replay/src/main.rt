// Replays a log of samples over a register and writes what it covered.
#![tactic(auto)]

mod entries;

ghost use Rattle.std.specs.Prelude.{◌≡◌, true, ◌≤◌, length};
ghost use Rattle.model.specs.Format.{accepted};
ghost use Rattle.table.specs.Check.{Few};

use crate::entries::take_all;
use report::Subject;
use report::printing::{print_ending, print_report};
use sample_log::state::Stop;
use sampling::put_kinds;
use std::env::Env;
use std::fmt::Write;
use std::fs::File;
use std::{fmt, io};
use streams::errors::{cannot_read, fail};
use streams::files::{fill, open};
use streams::help::{first_is, has_arg, say_help, say_usage};
use streams::out::Out;
use streams::text::Fault;
use table::answer::Facts;
use table::facts;

// The system's number for a name that is too long (ENAMETOOLONG).
const NAME_TOO_LONG: i32 = 36;

// Takes the log with a new register, and writes the report. There is a kind for each place.
fn take_log(
    rt: &HostRuntime,
    out: &mut Out,
    table: &[u8],
    kinds: &[u8],
    points: usize,
    file: &mut File,
    path: &[u8],
)
    requires { (accepted table.now ≡ true) × (points ≤ 16) × (length kinds.now ≤ 12416) }
{
    let mut register = [0u32; 14482];
    let _ = register::reset(table, &mut register);
    let (entry, stop) = take_all(out, &mut register, table, kinds, file, points);
    if let Some(Stop::Unread(error)) = stop {
        cannot_read(rt, path, error);
    }
    let subject = Subject {
        table,
        register: &register,
        kinds,
        points,
    };
    print_report(out, &subject);
    print_ending(out, entry, stop);
}

// An accepted table, and the log.
fn with_table(rt: &HostRuntime, out: &mut Out, table: &[u8], f: Facts, path: &[u8]) -> fmt::Result
    requires { (accepted table.now ≡ true) × Few f }
{
    let mut kinds = [0u8; 12416];
    put_kinds(&mut kinds, table);
    match open(rt, path) {
        Ok(mut file) => {
            let places = f.counters;
            take_log(rt, out, table, &kinds[..places], f.points, &mut file, path);
            Ok(())
        }
        Err(e) => {
            cannot_read(rt, path, e);
            writeln!(out, "no report: log not opened")
        }
    }
}

// A table's bytes, and the log.
fn with_bytes(rt: &HostRuntime, out: &mut Out, table: &[u8], path: &[u8]) -> fmt::Result {
    match facts(table) {
        Ok(f) => with_table(rt, out, table, f, path),
        Err(fault) => {
            let fault = Fault {
                number: u32::from(fault.class),
                place: fault.at,
            };
            writeln!(out, "no report: table refused: {fault}")
        }
    }
}

fn no_table(rt: &HostRuntime, out: &mut Out, path: &[u8], error: io::Error) -> fmt::Result {
    cannot_read(rt, path, error);
    writeln!(out, "no report: table not read")
}

// A table of more than 65,536 bytes shows by one byte more.
fn with_file(
    rt: &HostRuntime,
    out: &mut Out,
    file: &mut File,
    table: &[u8],
    log: &[u8],
) -> fmt::Result {
    let mut bytes = [0u8; 65537];
    let got = fill(&mut bytes, file, 0, 65537);
    if let Some(error) = got.error {
        return no_table(rt, out, table, error);
    }
    with_bytes(rt, out, &bytes[..got.count], log)
}

fn replay(rt: &HostRuntime, out: &mut Out, table: &[u8], log: &[u8]) -> fmt::Result {
    match open(rt, table) {
        Ok(mut file) => with_file(rt, out, &mut file, table, log),
        Err(e) => no_table(rt, out, table, e),
    }
}

// A name that its buffer does not hold.
fn refuse_name(rt: &HostRuntime, out: &mut Out, whose: &[u8]) -> fmt::Result {
    fail(rt, whose, io::Error::from_raw_os_error(NAME_TOO_LONG));
    writeln!(out, "no report: a name is too long")
}

// The two names, each whole or not taken.
fn with_names(rt: &HostRuntime, out: &mut Out) -> fmt::Result {
    let mut table = [0u8; 4096];
    let Ok(n) = rt.arg(1, &mut table) else {
        return refuse_name(rt, out, b"replay: the table's name");
    };
    let mut log = [0u8; 4096];
    let Ok(k) = rt.arg(2, &mut log) else {
        return refuse_name(rt, out, b"replay: the log's name");
    };
    replay(rt, out, &table[..n], &log[..k])
}

fn run(rt: &HostRuntime, out: &mut Out) -> fmt::Result {
    if first_is(rt, b"--help") | first_is(rt, b"-h") {
        say_help(out);
        return Ok(());
    }
    if first_is(rt, b"--version") | first_is(rt, b"-V") {
        return writeln!(out, "replay 0.3.0");
    }
    if !has_arg(rt, 2) | has_arg(rt, 3) {
        say_usage(rt);
        return Ok(());
    }
    with_names(rt, out)
}

// A write that fails is told where it fails.
fn main(rt: HostRuntime) {
    let mut out = Out::new(&rt);
    let _ = run(&rt, &mut out);
    out.flush();
}
