// The library as C and Rust callers see it; include/fluviquen.h declares it.
#![tactic(auto)]

ghost use Rattle.std.specs.Prelude.{◌≡◌, ◌+◌, ◌≤◌, length, take, drop};
ghost use Rattle.model.specs.Register as Model;
ghost use Rattle.table.specs.Check.{section_start};
ghost use Rattle.turns.specs.Batch.{batch};
ghost use Rattle.fluviquen.specs.Answers.{count_in, present_in, percent_in, millionths_in};

use figures::{Figure, percent_of};
use refusals::refusal::number;

// The table's refusal number; the words of a register and of a report, 0 and 0 if it is refused; the byte at fault, 0 if it is accepted or
// refused with 1.
#[unsafe(no_mangle)]
pub extern "C" fn fluviquen_measure(
    table: &[u8],
    words: &mut u32,
    illegal_places: &mut u32,
    place: &mut usize,
) -> u32
    ensures value { result ≡ (Model.measure table.now).number }
    ensures words_after { words.new ≡ (Model.measure table.now).words }
    ensures illegal_places_after { illegal_places.new ≡ (Model.measure table.now).illegals }
    ensures place_after { place.new ≡ (Model.measure table.now).place }
{
    match table::measure(table) {
        Ok(m) => {
            *words = m.words;
            *illegal_places = m.illegal_places;
            *place = 0;
            0
        }
        Err(fault) => {
            *words = 0;
            *illegal_places = 0;
            *place = fault.at;
            u32::from(fault.class)
        }
    }
}

// The table's refusal number; where the records of section 1 to 10 stand in it. Length 0 if it is refused, or for another number.
#[unsafe(no_mangle)]
pub extern "C" fn fluviquen_section(
    table: &[u8],
    number: u32,
    start: &mut usize,
    len: &mut usize,
) -> u32
    ensures value { result ≡ (Model.measure table.now).number }
    ensures start_after { start.new ≡ section_start table.now number }
    ensures table_after { take len.new (drop start.new table.now) ≡ Model.section table.now number }
    ensures len_in_bounds { start.new + len.new ≤ length table.now }
{
    match table::section_place(table, number) {
        Ok(part) => {
            *start = part.from;
            *len = part.to - part.from;
            0
        }
        Err(fault) => {
            *start = 0;
            *len = 0;
            u32::from(fault.class)
        }
    }
}

// Begins anew: flag 1, all else 0.
#[unsafe(no_mangle)]
pub extern "C" fn fluviquen_reset(table: &[u8], reg: &mut [u32]) -> u32
    ensures value { result ≡ (Model.call table.now reg.old Model.reset).response.number }
    ensures reg_after { reg.new ≡ (Model.call table.now reg.old Model.reset).words }
{
    number(&register::reset(table, reg))
}

// Runs a stopped register again: its sequences begin anew.
#[unsafe(no_mangle)]
pub extern "C" fn fluviquen_start(table: &[u8], reg: &mut [u32]) -> u32
    ensures value { result ≡ (Model.call table.now reg.old Model.start).response.number }
    ensures reg_after { reg.new ≡ (Model.call table.now reg.old Model.start).words }
{
    number(&register::start(table, reg))
}

// Stops a register.
#[unsafe(no_mangle)]
pub extern "C" fn fluviquen_stop(table: &[u8], reg: &mut [u32]) -> u32
    ensures value { result ≡ (Model.call table.now reg.old Model.stop).response.number }
    ensures reg_after { reg.new ≡ (Model.call table.now reg.old Model.stop).words }
{
    number(&register::stop(table, reg))
}

// Takes a sample; the report has a word for each illegal counter.
#[unsafe(no_mangle)]
pub extern "C" fn fluviquen_sample(
    table: &[u8],
    reg: &mut [u32],
    sample: &[u32],
    report: &mut [u32],
) -> u32
    ensures value { result ≡ (Model.call table.now reg.old (Model.sample sample.now report.old)).response.number }
    ensures reg_after { reg.new ≡ (Model.call table.now reg.old (Model.sample sample.now report.old)).words }
    ensures report_after { report.new ≡ (Model.call table.now reg.old (Model.sample sample.now report.old)).response.report }
{
    number(&batch::sample(table, reg, sample, report))
}

// Takes samples in turn, up to the first that is refused: their words stand one after another, and so do their reports.
#[unsafe(no_mangle)]
pub extern "C" fn fluviquen_samples(
    table: &[u8],
    reg: &mut [u32],
    samples: &[u32],
    reports: &mut [u32],
    taken: &mut usize,
) -> u32
    ensures value { result ≡ (batch table.now reg.old samples.now reports.old).number }
    ensures taken_after { taken.new ≡ (batch table.now reg.old samples.now reports.old).taken }
    ensures reg_after { reg.new ≡ (batch table.now reg.old samples.now reports.old).words }
    ensures reports_after { reports.new ≡ (batch table.now reg.old samples.now reports.old).reports }
{
    let a = batch::samples(table, reg, samples, reports);
    *taken = a.taken;
    number(&a.end)
}

// A place's count; 0 if refused.
#[unsafe(no_mangle)]
pub extern "C" fn fluviquen_place_count(
    table: &[u8],
    reg: &[u32],
    place: usize,
    count: &mut u32,
) -> u32
    ensures value { result ≡ (Model.call table.now reg.now (Model.ask_counter place)).response.number }
    ensures count_after { count.new ≡ count_in (Model.call table.now reg.now (Model.ask_counter place)).response.answer }
{
    let answer = register::place_count(table, reg, place);
    *count = answer.unwrap_or(0);
    number(&answer)
}

// A point's unknown count; 0 if refused.
#[unsafe(no_mangle)]
pub extern "C" fn fluviquen_unknown_count(
    table: &[u8],
    reg: &[u32],
    point: usize,
    count: &mut u32,
) -> u32
    ensures value { result ≡ (Model.call table.now reg.now (Model.ask_unknown point)).response.number }
    ensures count_after { count.new ≡ count_in (Model.call table.now reg.now (Model.ask_unknown point)).response.answer }
{
    let answer = register::unknown_count(table, reg, point);
    *count = answer.unwrap_or(0);
    number(&answer)
}

// An item's figure in percent; present 0 and percent 0 if there is none.
#[unsafe(no_mangle)]
pub extern "C" fn fluviquen_item_figure(
    table: &[u8],
    reg: &[u32],
    item: usize,
    present: &mut u32,
    percent: &mut f64,
) -> u32
    ensures value { result ≡ (Model.call table.now reg.now (Model.ask_item item)).response.number }
    ensures present_after { present.new ≡ present_in (Model.call table.now reg.now (Model.ask_item item)).response.answer }
    ensures percent_after { percent.new ≡ percent_in (Model.call table.now reg.now (Model.ask_item item)).response.answer }
{
    let answer = figure_calls::item_figure(table, reg, item);
    let figure = answer.unwrap_or(Figure::Nothing);
    *present = figures::present(figure);
    *percent = percent_of(figure);
    number(&answer)
}

// The group's figure in millionths of a percent; present 0 and millionths 0 if there is none.
#[unsafe(no_mangle)]
pub extern "C" fn fluviquen_group_figure(
    table: &[u8],
    reg: &[u32],
    present: &mut u32,
    millionths: &mut u32,
) -> u32
    ensures value { result ≡ (Model.call table.now reg.now Model.ask_group).response.number }
    ensures present_after { present.new ≡ present_in (Model.call table.now reg.now Model.ask_group).response.answer }
    ensures millionths_after { millionths.new ≡ millionths_in (Model.call table.now reg.now Model.ask_group).response.answer }
{
    let answer = figure_calls::group_figure(table, reg);
    let figure = answer.unwrap_or(None);
    *present = u32::from(figure.is_some());
    *millionths = figure.unwrap_or(0);
    number(&answer)
}
