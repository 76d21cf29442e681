// The last line.
use sample_log::state::Stop;
use std::fmt;
use std::fmt::Write;
use streams::out::Out;
use streams::text::Refusal;

// Why the log was taken no further than to an entry; without a stop the numbers of entries were used up.
pub fn say_ending(out: &mut Out, entry: u64, stop: Option<Stop>) -> fmt::Result {
    match stop {
        Some(Stop::Ended) => writeln!(out, "end of report"),
        Some(Stop::Cut) => writeln!(out, "partial report: log cut at entry {entry}"),
        Some(Stop::Refused(number)) => {
            let refusal = Refusal(number);
            writeln!(out, "partial report: entry {entry} refused: {refusal}")
        }
        Some(Stop::OfNoKind(first)) => writeln!(
            out,
            "partial report: entry {entry} of no kind: its first word is {first}, none of 0, 1, 2"
        ),
        Some(Stop::Unread(_)) | None => {
            writeln!(out, "partial report: log not read on from entry {entry}")
        }
    }
}
