// The calls that ask for figures.
#![tactic(auto)]

ghost use Rattle.std.specs.Prelude.{◌≡◌};
ghost use Rattle.model.specs.Register as Model;
ghost use Rattle.refusals.specs.Numbers.{number_in};
ghost use Rattle.figure_calls.specs.Answers.{item_in, group_in};

use figures::Figure;
use layout::layout_of;
use refusals::refusal::Refusal;
use refusals::{test_item, test_register};
use table::facts;

// An item's figure: its coverage in percent, or none.
pub fn item_figure(table: &[u8], register: &[u32], item: usize) -> Result<Figure, Refusal>
    ensures number_value { number_in result ≡ (Model.call table.now register.now (Model.ask_item item)).response.number }
    ensures figure_value { item_in result ≡ (Model.call table.now register.now (Model.ask_item item)).response.answer }
{
    let f = facts(table)?;
    let l = layout_of(table);
    test_item(register, item, l.point_count + l.cross_count, f)?;
    let figure = coverage::figure::item_figure(table, register, item, f.counters);
    Ok(figure)
}

// The group's figure: its coverage in millionths of a percent, or none.
pub fn group_figure(table: &[u8], register: &[u32]) -> Result<Option<u32>, Refusal>
    ensures number_value { number_in result ≡ (Model.call table.now register.now Model.ask_group).response.number }
    ensures figure_value { group_in result ≡ (Model.call table.now register.now Model.ask_group).response.answer }
{
    let f = facts(table)?;
    test_register(register, f)?;
    let figure = coverage::figure::group_figure(table, register, f.counters);
    Ok(figure)
}
