// A table's bytes: every byte string is checked, measured and asked for its sections.
#![tactic(auto)]

pub mod answer;
pub mod check;

ghost use Rattle.std.specs.Prelude.{◌≡◌, IfOk};
ghost use Rattle.model.specs.Register as Model;
ghost use Rattle.table.specs.Check.{facts_of, Few, measure_of, SectionAt};

use crate::answer::{Facts, Measure};
use crate::check::{check, examine};
use reader::{Part, section_bytes, section_part};
use words::verdicts::Fault;

pub fn facts(table: &[u8]) -> Result<Facts, Fault>
    ensures value { result ≡ facts_of table.now }
    ensures few { IfOk result Few }
{
    examine(table)
}

pub fn measure(table: &[u8]) -> Result<Measure, Fault>
    ensures { result ≡ measure_of table.now }
{
    match facts(table) {
        Ok(f) => {
            let words = 2 + f.counters + f.points + f.runs;
            Ok(Measure {
                words: words as u32,
                illegal_places: f.illegals as u32,
            })
        }
        // Not by `?`: the edit place_lost slips here.
        Err(fault) => Err(fault),
    }
}

// The records of section 1 to 10 as they stand in the table, without the count; none if the table is refused, or for another number.
pub fn section(table: &[u8], number: u32) -> &[u8]
    ensures { result.now ≡ Model.section table.now number }
{
    match check(table) {
        Ok(_) => section_bytes(table, number),
        Err(_) => &table[0..0],
    }
}

// The part of the table where they stand; empty for another number.
pub fn section_place(table: &[u8], number: u32) -> Result<Part, Fault>
    ensures { SectionAt table.now number result }
{
    check(table)?;
    Ok(section_part(table, number))
}
