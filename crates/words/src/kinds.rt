// The kinds of bins.
ghost use Rattle.std.specs.Prelude.{◌≡◌};
ghost use Rattle.model.specs.Table.{excludes};
ghost use Rattle.model.specs.Format.{kind_from};
ghost use Rattle.words.specs.Kinds.{meant, byte_of};

#[derive(Clone, Copy, PartialEq, Eq)]
pub enum Kind {
    Cover,
    Ignore,
    Illegal,
    Default,
}

// By the byte that says it.
impl From<u8> for Kind {
    ghost from_gives = { λ b kind. meant kind ≡ kind_from b };

    fn from(b: u8) -> Kind {
        match b {
            0 => Kind::Cover,
            1 => Kind::Ignore,
            2 => Kind::Illegal,
            _ => Kind::Default,
        }
    }
}

impl From<Kind> for u8 {
    ghost from_gives = { λ kind b. b ≡ byte_of kind };

    fn from(kind: Kind) -> u8 {
        kind as u8
    }
}

impl Kind {
    // A bin of the kind takes what it names from the cover bins.
    pub fn excludes(self) -> bool
        ensures { result ≡ excludes (meant self) }
    {
        matches!(self, Kind::Ignore | Kind::Illegal)
    }
}
