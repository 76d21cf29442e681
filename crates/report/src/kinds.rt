// What a counter is.
ghost use Rattle.std.specs.Prelude.{◌≡◌, cond, ltb, Some};
ghost use Rattle.report.specs.Kinds.{kind_text, number_of};

use std::fmt;

#[derive(Clone, Copy, PartialEq, Eq)]
pub enum CounterKind {
    Bin,
    DefaultBin,
    IllegalBin,
    TransitionBin,
    IllegalTransitionBin,
    CrossBin,
    IllegalCrossBin,
    Product,
    // Of no number that the flat arrays have.
    Other,
}

// By its number in the flat arrays.
impl From<u8> for CounterKind {
    ghost from_gives = { λ number kind. number_of kind ≡ cond (ltb number 8) number 8 };

    fn from(number: u8) -> Self {
        match number {
            0 => CounterKind::Bin,
            1 => CounterKind::DefaultBin,
            2 => CounterKind::IllegalBin,
            3 => CounterKind::TransitionBin,
            4 => CounterKind::IllegalTransitionBin,
            5 => CounterKind::CrossBin,
            6 => CounterKind::IllegalCrossBin,
            7 => CounterKind::Product,
            _ => CounterKind::Other,
        }
    }
}

impl CounterKind {
    pub fn is_illegal(self) -> bool {
        matches!(
            self,
            CounterKind::IllegalBin
                | CounterKind::IllegalTransitionBin
                | CounterKind::IllegalCrossBin
        )
    }
}

impl fmt::Display for CounterKind {
    ghost output = { λ kind. Some (kind_text kind) };

    fn fmt<W: fmt::Write>(&self, f: &mut fmt::Formatter<W>) -> fmt::Result {
        f.write_str(match self {
            CounterKind::Bin => "bin",
            CounterKind::DefaultBin => "default bin",
            CounterKind::IllegalBin => "illegal bin",
            CounterKind::TransitionBin => "transition bin",
            CounterKind::IllegalTransitionBin => "illegal transition bin",
            CounterKind::CrossBin => "cross bin",
            CounterKind::IllegalCrossBin => "illegal cross bin",
            CounterKind::Product => "product",
            CounterKind::Other => "",
        })
    }
}
