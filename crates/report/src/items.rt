// The lines of the points' unknown counts, and of the figures.
use crate::Subject;
use crate::counters::Owner;
use figures::Figure;
use std::fmt;
use std::fmt::Write;
use streams::out::Out;
use streams::text::Millionths;

pub fn say_unknowns(out: &mut Out, s: &Subject) -> fmt::Result {
    for point in 0..s.points {
        let count = register::unknown_count(s.table, s.register, point).unwrap_or(0);
        writeln!(out, "point {point} unknown: {count}")?;
    }
    Ok(())
}

// A percentage in millionths, to the nearest, halves up.
fn millionths(percent: f64) -> Millionths {
    Millionths(std::num::saturating_f64_to_u64(percent * 1000000.0 + 0.5))
}

fn say_item(out: &mut Out, s: &Subject, item: usize) -> fmt::Result {
    let owner = Owner::of(item, s.points);
    match figure_calls::item_figure(s.table, s.register, item) {
        Ok(Figure::Percent(p)) => writeln!(out, "item {item}: {} ({owner})", millionths(p)),
        _ => writeln!(out, "item {item}: no figure ({owner})"),
    }
}

pub fn say_items(out: &mut Out, s: &Subject, items: usize) -> fmt::Result {
    for item in 0..items {
        say_item(out, s, item)?;
    }
    Ok(())
}

pub fn say_group(out: &mut Out, s: &Subject) -> fmt::Result {
    match figure_calls::group_figure(s.table, s.register) {
        Ok(Some(m)) => writeln!(out, "group: {}", Millionths(u64::from(m))),
        _ => writeln!(out, "group: no figure"),
    }
}
