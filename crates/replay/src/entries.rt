// The entries of a log, one after the other; samples that follow one another, by blocks.
ghost use Rattle.std.specs.Prelude.{◌≡◌, ◌+◌, ◌*◌, ◌≤◌, ◌<◌, length, OnOk};
ghost use Rattle.turns.specs.Batch.{batch};
ghost use Rattle.turns.specs.Turns.{Took};
ghost use Rattle.sample_log.specs.Samples.{samples_in};
ghost use Rattle.sample_log.specs.Held.{Held, Onward};

use places::put_illegals;
use refusals::refusal::number;
use report::illegals::{Illegals, Sample};
use sample_log::at_end;
use sample_log::samples::{block_of, put_samples};
use sample_log::state::{Log, Stop};
use std::fs::File;
use streams::out::Out;
use turns::Taken;
use values::fields::word;
use words::bytes::read4;

// Entries are taken below this number.
const LAST: u64 = 18446744073709486080;

// A block whose bytes have come: the register takes its samples.
fn give_samples(
    register: &mut [u32],
    reports: &mut [u32],
    table: &[u8],
    bytes: &[u8],
    points: usize,
    count: usize,
) -> Taken
    requires { (points ≤ 16) × (count ≤ 256) }
    ensures took { Took (batch table.now register.old (samples_in points count bytes.now) reports.old) result register.new reports.new }
    ensures taken_bound { result.taken ≤ 9216 }
{
    let mut samples = [0u32; 9216];
    let n = put_samples(&mut samples, bytes, points, count);
    batch::samples(table, register, &samples[..n], reports)
}

// A register that takes the log's entries; what is raised is told on the output.
#[derive(Drop)]
struct Replay<'o, 't, 'r> {
    out: &'o mut Out,
    table: &'t [u8],
    register: &'r mut [u32],
    illegals: Illegals,
    reports: [u32; 12416],
    log: Log,
}

impl<'o, 't, 'r> Replay<'o, 't, 'r> {
    // A block from the bytes that stand in the buffer: a whole sample, and those that follow it.
    fn take_block(&mut self, bytes: &[u8]) -> Result<(), Stop>
        requires { (self.old.log.from + length bytes.now ≡ self.old.log.to) × (20 + 8 * self.old.log.points ≤ length bytes.now) × (self.old.log.entry < 18446744073709486080) }
        ensures held { Held self.new.log self.old.log.to }
        ensures onward { OnOk result (Onward self.old.log self.new.log) }
    {
        let points = self.log.points;
        let first = Sample {
            number: u64::from(word(self.register, 1)) + 1,
            entry: self.log.entry,
        };
        let block = block_of(bytes, points, self.log.illegals);
        let t = give_samples(
            self.register,
            &mut self.reports,
            self.table,
            bytes,
            points,
            block.count,
        );
        // Where a write fails, the log is still taken to its end.
        self.illegals
            .print_reports(self.out, &self.reports, t.taken, first);
        if let Err(refusal) = t.end {
            self.log.pass(0, t.taken);
            return Err(Stop::Refused(u32::from(refusal)));
        }
        self.log.pass(block.size, block.count);
        Ok(())
    }

    fn take_samples(&mut self, bytes: &mut [u8], file: &mut File) -> Result<(), Stop>
        requires { Held self.old.log (length bytes.old) × (self.old.log.entry < 18446744073709486080) }
        ensures held { Held self.new.log (length bytes.new) }
        ensures onward { OnOk result (Onward self.old.log self.new.log) }
    {
        let size = 20 + 8 * self.log.points;
        self.log.have_bytes(bytes, file, size)?;
        self.take_block(&bytes[self.log.from..self.log.to])
    }

    // An entry, or a block of samples: the first word says what it is.
    fn take_next(&mut self, bytes: &mut [u8], file: &mut File) -> Result<(), Stop>
        requires { Held self.old.log (length bytes.old) × (self.old.log.entry < 18446744073709486080) }
        ensures held { Held self.new.log (length bytes.new) }
        ensures onward { OnOk result (Onward self.old.log self.new.log) }
    {
        if let Err(stop) = self.log.have_bytes(bytes, file, 4) {
            return Err(at_end(stop, self.log.to - self.log.from));
        }
        match read4(&bytes[self.log.from..], 0) {
            0 => self.take_samples(bytes, file),
            1 => self
                .log
                .outcome(number(&register::start(self.table, self.register))),
            2 => self
                .log
                .outcome(number(&register::stop(self.table, self.register))),
            first => Err(Stop::OfNoKind(first)),
        }
    }

    // Entries, until the log stops.
    fn take_entries(&mut self, bytes: &mut [u8], file: &mut File) -> Result<(), Stop>
        requires { Held self.old.log (length bytes.old) }
    {
        while self.log.entry < LAST {
            self.take_next(bytes, file)?;
        }
        Ok(())
    }
}

// The log of a file, with a register of the table; there is a kind for each place. Answers the entry
// that it was taken to, and why no further.
pub fn take_all(
    out: &mut Out,
    register: &mut [u32],
    table: &[u8],
    kinds: &[u8],
    file: &mut File,
    points: usize,
) -> (u64, Option<Stop>)
    requires { (points ≤ 16) × (length kinds.now ≤ 12416) }
{
    let mut replay = Replay {
        out,
        table,
        register,
        illegals: Illegals {
            places: [0; 12416],
            shown: [0; 12416],
            count: 0,
        },
        reports: [0; 12416],
        log: Log::new(points, 0),
    };
    let illegals = &mut replay.illegals;
    let n = put_illegals(&mut illegals.places, kinds, 0);
    illegals.count = n;
    replay.log.illegals = n;
    let mut bytes = [0u8; 65536];
    let stop = replay.take_entries(&mut bytes, file).err();
    (replay.log.entry, stop)
}
