// What the program says of itself.
use crate::errors::write_error;
use crate::out::Out;
use crate::text::Refusal;
use std::env::{Env, FillError};
use std::fmt;
use std::fmt::Write;

pub fn say_usage(rt: &HostRuntime) {
    write_error(rt, b"usage: replay TABLE LOG   (replay --help explains)\n");
}

// What it takes.
fn say_purpose(out: &mut Out) -> fmt::Result {
    out.write_str(
        "replay TABLE LOG

Takes a log of samples with a new register of a coverage table, and writes a report.
  TABLE  a file with the table's bytes, at most 65,536
  LOG    a file of any length with the log's entries
replay --version writes the version.

The log is 32-bit words, little-endian. An entry's first word says what it is:
  0  a sample; 4 + 2 * points words follow: guard bits (two words), unknown
     guard bits (two words), then each point's value bits and unknown bits
  1  start, alone
  2  stop, alone
Entries count from 0, samples from 1, places, points and items from 0.

",
    )
}

// What it writes.
fn say_lines(out: &mut Out) -> fmt::Result {
    out.write_str(
        "The report is lines of text on standard output:
  illegal place P raised at sample S (entry E)
     (in the log's order; the first 10 times of each place)
  illegal place P total: COUNT (SHOWN shown)  (each that was raised)
  samples N, running  (or: stopped)
  place P: COUNT (OWNER, WHAT, STANDING)
  point P unknown: COUNT
  item I: PERCENT % (OWNER)  (or: no figure; the points, then the crosses)
  group: PERCENT %  (or: no figure)
OWNER is point N or cross N. WHAT is bin, default bin, illegal bin, transition bin,
illegal transition bin, cross bin, illegal cross bin or product. STANDING is covered
(its count has the owner's at-least), uncovered, or not in the total.
An item's percentage is a 64-bit float: times 1,000,000 it is rounded to the
nearest whole, halves up. The group's is counted in millionths, rounded down.

",
    )
}

// How its output ends.
fn say_endings(out: &mut Out) -> fmt::Result {
    out.write_str(
        "There is no exit status: the last line on standard output tells. It is
  end of report  (whole: the log was taken to its end)
or, after the report on the entries before entry N, why the log was taken no further,
  partial report: log cut at entry N  (the log ends within it)
  partial report: entry N refused: NUMBER (REASON)
  partial report: entry N of no kind: its first word is W, none of 0, 1, 2
  partial report: log not read on from entry N  (a read failed)
or, where no entry was taken,
  no report: table refused: NUMBER at byte PLACE (REASON)  (1 has no place)
  no report: table not read
  no report: log not opened
  no report: a name is too long
With none of these the output is cut. Errors go to standard error, with the system's
reason; in names a control byte or a backslash is \\xNN. After a write that fails
nothing more is written to standard output.

Stack: 1,024 KB.

",
    )
}

// A table's, in the order in which they are tested; 3 and 15 to 17 are of one count or field.
const OF_TABLE: [u32; 9] = [1, 2, 3, 15, 16, 17, 4, 5, 6];

const OF_ENTRY: [u32; 3] = [9, 10, 13];

fn say_numbers(out: &mut Out, numbers: &[u32]) -> fmt::Result {
    for number in numbers {
        writeln!(out, "  {}", Refusal(*number))?;
    }
    Ok(())
}

fn say_refusals(out: &mut Out) -> fmt::Result {
    writeln!(out, "Refusals of a table, at the byte PLACE, from 0:")?;
    say_numbers(out, &OF_TABLE)?;
    writeln!(out, "Refusals of an entry:")?;
    say_numbers(out, &OF_ENTRY)
}

fn write_help(out: &mut Out) -> fmt::Result {
    say_purpose(out)?;
    say_lines(out)?;
    say_endings(out)?;
    say_refusals(out)
}

// A write that fails is told by the output itself.
pub fn say_help(out: &mut Out) {
    let _ = write_help(out);
}

// The first argument is the given word, of at most nine bytes.
pub fn first_is(rt: &HostRuntime, text: &[u8]) -> bool {
    let mut word = [0u8; 9];
    match rt.arg(1, &mut word) {
        Ok(n) => &word[..n] == text,
        Err(_) => false,
    }
}

// There is an argument of that number.
pub fn has_arg(rt: &HostRuntime, i: usize) -> bool {
    let mut none = [0u8; 0];
    !matches!(rt.arg(i, &mut none), Err(FillError::NotPresent))
}
