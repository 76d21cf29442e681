// Why a call is refused.
ghost use Rattle.std.specs.Prelude.{◌≡◌};
ghost use Rattle.refusals.specs.Numbers.{number_of, number_in};
ghost use Rattle.refusals.specs.declared.refusal.Refusal.TheVariants.{Table};

use words::verdicts::Fault;

// Document 01's refusals of a call on a register.
#[derive(Clone, Copy, Debug, PartialEq, Eq)]
pub enum Refusal {
    // The table is refused.
    Table(Fault),
    // The register is too short for the table.
    Short,
    // Its flag or a count is impossible.
    Inconsistent,
    // It has taken 4,294,967,295 samples.
    Full,
    // It is stopped.
    Stopped,
    // The report is too short.
    Report,
    // The sample has another length than the table says.
    Length,
    // A value or unknown bit stands above a point's width.
    Width,
    // The table has no such counter, point or item.
    NoPart,
}

// The refusal number.
impl From<Refusal> for u32 {
    ghost from_gives = { λ refusal r. r ≡ number_of refusal };

    fn from(refusal: Refusal) -> u32 {
        match refusal {
            Refusal::Table(fault) => u32::from(fault.class),
            Refusal::Short => 7,
            Refusal::Inconsistent => 8,
            Refusal::Full => 9,
            Refusal::Stopped => 10,
            Refusal::Report => 11,
            Refusal::Length => 12,
            Refusal::Width => 13,
            Refusal::NoPart => 14,
        }
    }
}

impl From<Fault> for Refusal {
    ghost from_gives = { λ fault r. r ≡ Table fault };

    fn from(fault: Fault) -> Refusal {
        Refusal::Table(fault)
    }
}

// The number of an answer, 0 if it is accepted.
pub fn number<T: Drop>(answer: &Result<T, Refusal>) -> u32
    ensures { result ≡ number_in answer.now }
{
    match answer {
        Ok(_) => 0,
        Err(refusal) => u32::from(*refusal),
    }
}
