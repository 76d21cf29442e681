// What the numbers of the report mean, as text.
use std::fmt;

// Millionths of a percent: a percentage with six decimals.
#[derive(Clone, Copy)]
pub struct Millionths(pub u64);

impl fmt::Display for Millionths {
    fn fmt<W: fmt::Write>(&self, f: &mut fmt::Formatter<W>) -> fmt::Result {
        let whole = self.0 / 1000000;
        let rest = self.0 % 1000000;
        write!(f, "{whole}.{rest:06} %")
    }
}

// What a refusal number means.
fn reason(number: u32) -> &'static str {
    match number {
        1 => "the table is over 65,536 bytes",
        2 => "a count or record of the table runs past its end",
        3 => "a section count or an owned count outside its limits",
        4 => { "counts, defaults, sequences, crosses or expressions of the table do not agree" }
        5 => "the table has bytes after section ten",
        6 => { "the table has over 256 places at a point, or over 1,024 products in a cross" }
        9 => "the register has taken 4,294,967,295 samples",
        10 => "the register is stopped",
        13 => "a value or unknown bit above a point's width",
        15 => "a field outside its allowed values, or a guard at an ignore bin",
        16 => {
            "a, b, lo or hi outside the point's type, out of order, or a pattern outside its mask"
        }
        17 => "an unused field without its unused value",
        _ => "",
    }
}

// A refusal number, and what it means.
#[derive(Clone, Copy)]
pub struct Refusal(pub u32);

impl fmt::Display for Refusal {
    fn fmt<W: fmt::Write>(&self, f: &mut fmt::Formatter<W>) -> fmt::Result {
        let number = self.0;
        write!(f, "{number} ({})", reason(number))
    }
}

// A table's refusal number, the byte at fault, and what the number means. A table that is too long has no such byte.
#[derive(Clone, Copy)]
pub struct Fault {
    pub number: u32,
    pub place: usize,
}

impl fmt::Display for Fault {
    fn fmt<W: fmt::Write>(&self, f: &mut fmt::Formatter<W>) -> fmt::Result {
        let number = self.number;
        let place = self.place;
        if number == 1 {
            return write!(f, "{}", Refusal(number));
        }
        write!(f, "{number} at byte {place} ({})", reason(number))
    }
}
