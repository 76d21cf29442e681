// Standard output through a buffer.
ghost use Rattle.std.specs.Prelude.{◌≡◌, ◌≤◌, length, IfOk, OnOk};

use crate::errors::fail;
use std::io::{ErrorKind, Print, Stdout};
use std::thread::yield_now;
use std::{fmt, io};

// The bytes of the buffer.
const SIZE: usize = 16384;

// How often a write that the system does not take now is tried before it counts as failed.
const TRIES: u32 = 100000000;

fn may_pass(error: io::Error) -> bool {
    let kind = error.kind();
    (kind == ErrorKind::Interrupted) | (kind == ErrorKind::WouldBlock)
}

// One write that the system takes: how many bytes it moved.
fn write_some(to: Stdout, text: &[u8]) -> io::Result<usize>
    ensures { IfOk result (λ n. n ≤ length text.now) }
{
    let mut tries = 1;
    loop {
        match to.write_some(text) {
            Ok(n) => return Ok(n),
            Err(e) => {
                if (tries >= TRIES) | !may_pass(e) {
                    return Err(e);
                }
            }
        }
        yield_now();
        tries += 1;
    }
}

// Writes the whole text, or fails at the first write that does.
fn write_whole(to: Stdout, text: &[u8]) -> io::Result<()> {
    let mut done = 0;
    while done < text.len() {
        let n = write_some(to, &text[done..])?;
        if n == 0 {
            return Err(io::Error::from(ErrorKind::WriteZero));
        }
        done += n;
    }
    Ok(())
}

// Standard output: the bytes before end of its buffer are not written yet. Once a write has failed
// nothing more is written.
#[derive(Drop)]
pub struct Out {
    rt: HostRuntime,
    text: [u8; SIZE],
    end: usize,
    failed: bool,
    ghost within: { end ≤ 16384 },
}

impl Out {
    pub fn new(rt: &HostRuntime) -> Out {
        Out {
            rt: *rt,
            text: [0; SIZE],
            end: 0,
            failed: false,
        }
    }

    // Writes the text that the buffer holds. The first failure is said, and is the last write.
    pub fn flush(&mut self) {
        let _ = self.try_flush();
    }

    // The same, and whether it was written.
    pub fn try_flush(&mut self) -> fmt::Result
        ensures { OnOk result (self.new.end ≡ 0) }
    {
        if self.failed {
            return Err(fmt::Error);
        }
        match write_whole(self.rt.stdout(), &self.text[..self.end]) {
            Ok(()) => {
                self.end = 0;
                Ok(())
            }
            Err(e) => {
                fail(&self.rt, b"replay: cannot write", e);
                self.failed = true;
                Err(fmt::Error)
            }
        }
    }

    // Makes room for a byte; after a write that failed the buffer stays full.
    fn put(&mut self, b: u8) -> fmt::Result {
        if self.end == SIZE {
            self.try_flush()?;
        }
        self.text[self.end] = b;
        self.end += 1;
        Ok(())
    }
}

impl fmt::Write for Out {
    // What the buffer has room for is copied whole, else byte by byte, as the buffer is written when a byte finds it full.
    fn write_str(&mut self, s: &str) -> fmt::Result {
        let text = s.as_bytes();
        let n = text.len();
        if n <= SIZE - self.end {
            let end = self.end + n;
            self.text[self.end..end].copy_from_slice(text);
            self.end = end;
            return Ok(());
        }
        for b in text {
            self.put(*b)?;
        }
        Ok(())
    }
}
