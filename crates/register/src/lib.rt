// The calls on a register, but samples and figures: the table's bytes and the register's words as they are lent. A refused call writes nothing.
#![tactic(auto)]

mod zeros;

ghost use Rattle.std.specs.Prelude.{◌≡◌};
ghost use Rattle.model.specs.Register as Model;
ghost use Rattle.refusals.specs.Numbers.{number_in};
ghost use Rattle.register.specs.Answers.{counted_in};

use crate::zeros::run;
use refusals::refusal::Refusal;
use refusals::{test_counter, test_reset, test_start, test_unknown};
use table::facts;

// Makes the register new: it runs, and every count is 0.
pub fn reset(table: &[u8], register: &mut [u32]) -> Result<(), Refusal>
    ensures value { number_in result ≡ (Model.call table.now register.old Model.reset).response.number }
    ensures register_after { register.new ≡ (Model.call table.now register.old Model.reset).words }
{
    let f = facts(table)?;
    test_reset(register, f)?;
    let rest = 1 + f.counters + f.points + f.runs;
    run(register, 1, rest);
    Ok(())
}

// Lets the register run: a stopped one forgets the runs of its sequences.
pub fn start(table: &[u8], register: &mut [u32]) -> Result<(), Refusal>
    ensures value { number_in result ≡ (Model.call table.now register.old Model.start).response.number }
    ensures register_after { register.new ≡ (Model.call table.now register.old Model.start).words }
{
    let f = facts(table)?;
    test_start(register, f)?;
    if register[0] == 1 {
        return Ok(());
    }
    let at = 2 + f.counters + f.points;
    run(register, at, f.runs);
    Ok(())
}

pub fn stop(table: &[u8], register: &mut [u32]) -> Result<(), Refusal>
    ensures value { number_in result ≡ (Model.call table.now register.old Model.stop).response.number }
    ensures register_after { register.new ≡ (Model.call table.now register.old Model.stop).words }
{
    let f = facts(table)?;
    test_start(register, f)?;
    register[0] = 0;
    Ok(())
}

// The count of a counter.
pub fn place_count(table: &[u8], register: &[u32], place: usize) -> Result<u32, Refusal>
    ensures number_value { number_in result ≡ (Model.call table.now register.now (Model.ask_counter place)).response.number }
    ensures count_value { counted_in result ≡ (Model.call table.now register.now (Model.ask_counter place)).response.answer }
{
    let f = facts(table)?;
    test_counter(register, place, f)?;
    let count = register[2 + place];
    Ok(count)
}

// The count of a point's unknown readings.
pub fn unknown_count(table: &[u8], register: &[u32], point: usize) -> Result<u32, Refusal>
    ensures number_value { number_in result ≡ (Model.call table.now register.now (Model.ask_unknown point)).response.number }
    ensures count_value { counted_in result ≡ (Model.call table.now register.now (Model.ask_unknown point)).response.answer }
{
    let f = facts(table)?;
    test_unknown(register, point, f)?;
    let counters = f.counters;
    let count = register[2 + counters + point];
    Ok(count)
}
