// What a sample says of a point.
#![tactic(auto)]

ghost use Rattle.std.specs.Prelude.{◌≡◌};
ghost use Rattle.model.specs.Sampling.{is_skipped, is_unknown};
ghost use Rattle.arrays.specs.Flat.{reading_from};

// Skipped: the point's guard is false. A known value is below 2^33.
#[derive(Clone, Copy)]
pub enum Reading {
    Skipped,
    Unknown,
    Known(u64),
}

impl Reading {
    pub fn is_skipped(self) -> bool
        ensures { result ≡ is_skipped (reading_from self) }
    {
        matches!(self, Reading::Skipped)
    }

    pub fn is_unknown(self) -> bool
        ensures { result ≡ is_unknown (reading_from self) }
    {
        matches!(self, Reading::Unknown)
    }
}
