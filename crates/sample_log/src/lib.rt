// A log as it is read: how it stands between its entries, and its samples.
#![tactic(auto)]

pub mod samples;
pub mod state;

ghost use Rattle.std.specs.Prelude.{◌≡◌, ◌+◌, ◌≤◌, ◌<◌, length, OnOk, IfErr};
ghost use Rattle.std.specs.Io.KnownBytes.{IsAtEnd, Keeps};
ghost use Rattle.sample_log.specs.Held.{Held, SameEntry, Onward, Standing, left_of};

use crate::state::{Log, Stop};
use std::io::Read;
use streams::files::{fill, to_front};

impl Log {
    pub fn new(points: usize, illegals: usize) -> Log
        requires { (points ≤ 16) × (illegals ≤ 12416) }
        ensures { Held result 0 }
    {
        Log {
            points,
            illegals,
            from: 0,
            to: 0,
            entry: 0,
        }
    }

    // So many entries, and their bytes, are taken.
    pub fn pass(&mut self, size: usize, entries: usize)
        requires { (self.old.from + size ≤ self.old.to) × (self.old.entry < 18446744073709486080) × (entries ≤ 9216) }
        ensures { Held self.new self.old.to × (self.new.entry ≡ self.old.entry + entries) }
    {
        self.from += size;
        self.entry += entries as u64;
    }

    // An entry of one word was given to a call, which answered a number.
    pub fn outcome(&mut self, number: u32) -> Result<(), Stop>
        requires { (self.old.from + 4 ≤ self.old.to) × (self.old.entry < 18446744073709486080) }
        ensures held { Held self.new self.old.to }
        ensures onward { OnOk result (Onward self.old self.new) }
    {
        if number != 0 {
            return Err(Stop::Refused(number));
        }
        self.pass(4, 1);
        Ok(())
    }

    // Reads on until the next want bytes stand in the buffer; fewer where the log ends or a read fails.
    pub fn have_bytes<R: Read>(
        &mut self,
        bytes: &mut [u8],
        file: &mut R,
        want: usize,
    ) -> Result<(), Stop>
        requires { Held self.old (length bytes.old) }
        ensures log { Held self.new (length bytes.new) × SameEntry self.old self.new × OnOk result (Standing want self.new) }
        ensures bytes { Keeps (left_of self.old bytes.old (R.remaining file.old)) (left_of self.new bytes.new (R.remaining file.new)) }
        ensures cut { IfErr result (λ stop. stop ≡ Stop.Cut → want ≤ length bytes.new → IsAtEnd (R.remaining file.new)) }
    {
        if want <= self.to - self.from {
            return Ok(());
        }
        let have = to_front(bytes, self.from, self.to);
        let got = fill(bytes, file, have, want);
        self.from = 0;
        self.to = got.count;
        if want <= got.count {
            return Ok(());
        }
        Err(got.error.map_or(Stop::Cut, Stop::Unread))
    }
}

// A log that is cut where an entry could begin, with no bytes left, has ended.
pub fn at_end(stop: Stop, left: usize) -> Stop {
    match stop {
        Stop::Cut if left == 0 => Stop::Ended,
        _ => stop,
    }
}
