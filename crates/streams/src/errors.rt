// Lines on standard error, with the system's reason.
use crate::line::Line;
use std::fmt::Write;
use std::io::Print;
use std::{fmt, io};

fn is_plain(b: u8) -> bool {
    (b >= 32) & (b != 127) & (b != b'\\')
}

// A name in a line: a control byte and a backslash as \x and two digits.
fn put_name<const N: usize>(line: &mut Line<N>, name: &[u8]) -> fmt::Result {
    for b in name {
        if is_plain(*b) {
            line.put(*b);
        } else {
            write!(line, "\\x{b:02x}")?;
        }
    }
    Ok(())
}

// The system's reason, without its number.
fn without_number(text: &str) -> &str {
    match text.split_once(" (os error ") {
        Some((reason, _)) => reason,
        None => text,
    }
}

// The text of an error has at most 256 bytes.
fn say_reason(rt: &HostRuntime, error: io::Error) {
    let mut reason = Line::<256>::new();
    let _ = write!(reason, "{error}");
    if let Ok(text) = std::str::from_utf8(reason.as_bytes()) {
        write_error(rt, without_number(text).as_bytes());
    }
}

pub fn write_error(rt: &HostRuntime, text: &[u8]) {
    let _ = rt.stderr().write_all(text);
}

// A line on standard error: what failed, and the system's reason.
pub fn fail(rt: &HostRuntime, what: &[u8], error: io::Error) {
    write_error(rt, what);
    write_error(rt, b": ");
    say_reason(rt, error);
    write_error(rt, b"\n");
}

// The line has room for a name of 4,096 bytes that are all escaped.
pub fn cannot_read(rt: &HostRuntime, path: &[u8], error: io::Error) {
    let mut line = Line::<16448>::new();
    let _ = write!(line, "replay: cannot read ");
    let _ = put_name(&mut line, path);
    fail(rt, line.as_bytes(), error);
}
