// The lines of the counters.
ghost use Rattle.std.specs.Prelude.{◌≡◌, true};
ghost use Rattle.model.specs.Format.{accepted};

use crate::Subject;
use crate::kinds::CounterKind;
use coverage::items::put_leasts;
use sampling::{put_items, put_kinds, put_totals};
use std::fmt;
use std::fmt::Write;
use streams::out::Out;
use values::fields::word;
use words::bytes::byte;

// The count of a place; 0 where no table has that many.
pub fn count_of(register: &[u32], place: usize) -> u32 {
    if place < 65536 {
        word(register, 2 + place)
    } else {
        0
    }
}

// Whose item it is: the points' come first, then the crosses'.
#[derive(Clone, Copy)]
pub enum Owner {
    Point(usize),
    Cross(usize),
}

impl Owner {
    pub fn of(item: usize, points: usize) -> Owner {
        if item < points {
            Owner::Point(item)
        } else {
            Owner::Cross(item - points)
        }
    }
}

impl fmt::Display for Owner {
    fn fmt<W: fmt::Write>(&self, f: &mut fmt::Formatter<W>) -> fmt::Result {
        match self {
            Owner::Point(point) => write!(f, "point {point}"),
            Owner::Cross(cross) => write!(f, "cross {cross}"),
        }
    }
}

// Whether a counter is in its item's total, and has its at-least.
#[derive(Clone, Copy)]
enum Standing {
    Covered,
    Uncovered,
    NotInTotal,
}

impl fmt::Display for Standing {
    fn fmt<W: fmt::Write>(&self, f: &mut fmt::Formatter<W>) -> fmt::Result {
        f.write_str(match self {
            Standing::Covered => "covered",
            Standing::Uncovered => "uncovered",
            Standing::NotInTotal => "not in the total",
        })
    }
}

// What the table says of the places: the kind of each, its item, and whether it is in that item's
// total; and each item's at-least.
#[derive(Drop)]
struct Places {
    kinds: [u8; 12416],
    items: [u8; 12416],
    totals: [u8; 12416],
    leasts: [u32; 24],
}

impl Places {
    fn standing(&self, place: usize, item: usize, count: u32) -> Standing {
        if byte(&self.totals, place) != 1 {
            Standing::NotInTotal
        } else if word(&self.leasts, item) <= count {
            Standing::Covered
        } else {
            Standing::Uncovered
        }
    }
}

// A place's count, its owner, what it is, and how it stands.
fn say_counter(out: &mut Out, s: &Subject, places: &Places, place: usize, kind: u8) -> fmt::Result {
    let item = byte(&places.items, place) as usize;
    let count = count_of(s.register, place);
    let owner = Owner::of(item, s.points);
    let kind = CounterKind::from(kind);
    let standing = places.standing(place, item, count);
    writeln!(out, "place {place}: {count} ({owner}, {kind}, {standing})")
}

// The counters, one line each.
pub fn say_counters(out: &mut Out, s: &Subject) -> fmt::Result
    requires { accepted s.now.table.now ≡ true }
{
    let mut places = Places {
        kinds: [0; 12416],
        items: [0; 12416],
        totals: [0; 12416],
        leasts: [0; 24],
    };
    let x = put_kinds(&mut places.kinds, s.table);
    put_items(&mut places.items, s.table, x);
    put_totals(&mut places.totals, s.table, &places.kinds, x);
    put_leasts(&mut places.leasts, s.table);
    for (place, kind) in s.kinds.iter().enumerate() {
        say_counter(out, s, &places, place, *kind)?;
    }
    Ok(())
}
