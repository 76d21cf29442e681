// Reading files through a buffer: a read that fails is told from the end.
ghost use Rattle.std.specs.Prelude.{◌+◌, ◌<◌, ◌≤◌, ◌≡◌, None, length, take, drop, IfOk};
ghost use Rattle.std.specs.Io.KnownBytes.{Consumes, IsAtEnd, ReadConsumes};
ghost use Rattle.std.specs.Io.{ReadsAtMost};
ghost use Rattle.arrays.specs.Put.{put};
ghost use Rattle.streams.specs.Counts.{IsPrefixLen};

use std::fs::File;
use std::io;
use std::io::{ErrorKind, Read};

// How often a read that a signal interrupts is tried before it counts as failed.
const TRIES: u32 = 100000000;

// The system's number for a file that is not there (ENOENT).
const NOT_THERE: i32 = 2;

// A file to be read. std opens a file by a name that is UTF-8; one of any other name counts as not there.
pub fn open(rt: &HostRuntime, path: &[u8]) -> io::Result<File> {
    match std::str::from_utf8(path) {
        Ok(name) => File::open(rt, name),
        Err(_) => Err(io::Error::from_raw_os_error(NOT_THERE)),
    }
}

// How many bytes came, and the error of the read after them, if it failed: no Result, since both can be there.
#[derive(Clone, Copy)]
pub struct Filled {
    pub count: usize,
    pub error: Option<io::Error>,
}

// One read: 0 bytes at the end.
fn read_some<R: Read>(part: &mut [u8], file: &mut R) -> io::Result<usize>
    ensures count { ReadsAtMost result part.new }
    ensures bytes { ReadConsumes (R.remaining file.old) (R.remaining file.new) result part.new }
{
    let mut tries = 1;
    loop {
        match file.read(part) {
            Ok(n) => return Ok(n),
            Err(e) => {
                if (tries >= TRIES) | (e.kind() != ErrorKind::Interrupted) {
                    return Err(e);
                }
            }
        }
        tries += 1;
    }
}

// One read, behind the first bytes.
fn read_behind<R: Read>(buf: &mut [u8], file: &mut R, at: usize) -> io::Result<usize>
    requires { at ≤ length buf.old }
    ensures count { IfOk result (λ n. at + n ≤ length buf.new) }
    ensures front { take at buf.new ≡ take at buf.old }
    ensures bytes { ReadConsumes (R.remaining file.old) (R.remaining file.new) result (drop at buf.new) }
{
    read_some(&mut buf[at..], file)
}

// Reads on behind the first have bytes until there are want, and more if they come at once; fewer
// only where the file ended or a read failed.
pub fn fill<R: Read>(buf: &mut [u8], file: &mut R, have: usize, want: usize) -> Filled
    requires { have ≤ length buf.old }
    ensures count { IsPrefixLen result.count buf.new }
    ensures more { have ≤ result.count }
    ensures front { take have buf.new ≡ take have buf.old }
    ensures bytes { Consumes (R.remaining file.old) (R.remaining file.new) (drop have (take result.count buf.new)) }
    ensures end { result.error ≡ None → result.count < want → want ≤ length buf.new → IsAtEnd (R.remaining file.new) }
{
    let mut done = have;
    while done < want {
        match read_behind(buf, file, done) {
            Ok(0) => break,
            Ok(n) => done += n,
            Err(e) => {
                return Filled {
                    count: done,
                    error: Some(e),
                };
            }
        }
    }
    Filled {
        count: done,
        error: None,
    }
}

// Moves the bytes from .. to to the front, and answers how many they are.
pub fn to_front(buf: &mut [u8], from: usize, to: usize) -> usize
    requires { (from ≤ to) × (to ≤ length buf.old) }
    ensures result_value { from + result ≡ to }
    ensures buf_after { buf.new ≡ put 0 (take result (drop from buf.old)) buf.old }
{
    buf.copy_within(from..to, 0);
    to - from
}
