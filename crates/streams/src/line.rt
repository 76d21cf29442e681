// A line in fixed memory: what has no room in it is cut.
ghost use Rattle.std.specs.Prelude.{◌≤◌};

use std::fmt;

// The bytes before end are the line so far.
#[derive(Drop)]
pub struct Line<const N: usize> {
    text: [u8; N],
    end: usize,
    ghost within: { end ≤ N },
}

impl<const N: usize> Line<N> {
    pub fn new() -> Line<N> {
        Line {
            text: [0; N],
            end: 0,
        }
    }

    pub fn as_bytes(&self) -> &[u8] {
        &self.text[..self.end]
    }

    pub fn put(&mut self, b: u8) {
        if self.end < N {
            self.text[self.end] = b;
            self.end += 1;
        }
    }
}

impl<const N: usize> fmt::Write for Line<N> {
    fn write_str(&mut self, s: &str) -> fmt::Result {
        for b in s.as_bytes() {
            self.put(*b);
        }
        Ok(())
    }
}
