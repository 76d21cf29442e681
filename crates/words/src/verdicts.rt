// What a check says of a table's bytes: where reading goes on, or what is wrong and where.
ghost use Rattle.std.specs.Prelude.{◌≡◌, ◌+◌, ◌≤◌, leb, length, IfOk};
ghost use Rattle.words.specs.Verdicts.{number_of, tested, unless_fault};

// The classes of faults. Each has a refusal number of document 01.
#[derive(Clone, Copy, Debug, PartialEq, Eq)]
pub enum FaultClass {
    // The table is over 65,536 bytes.
    TooLong,
    // A count or record runs past the table's end.
    Cut,
    // A section count or an owned count outside its limits.
    Count,
    // A field outside its allowed values, or a guard at an ignore bin.
    Field,
    // a, b, lo or hi outside the point's type, out of order, or a pattern outside its mask.
    Value,
    // An unused field without its unused value.
    Unused,
    // Counts, defaults, sequences, crosses or expressions that do not agree.
    Disagreement,
    // Bytes after section ten.
    Leftover,
    // Over 256 places at a point, or over 1,024 products in a cross.
    Limits,
}

// The refusal number.
impl From<FaultClass> for u32 {
    ghost from_gives = { λ class r. r ≡ number_of class };

    fn from(class: FaultClass) -> u32 {
        match class {
            FaultClass::TooLong => 1,
            FaultClass::Cut => 2,
            FaultClass::Count => 3,
            FaultClass::Disagreement => 4,
            FaultClass::Leftover => 5,
            FaultClass::Limits => 6,
            FaultClass::Field => 15,
            FaultClass::Value => 16,
            FaultClass::Unused => 17,
        }
    }
}

// What is wrong, and the byte at fault.
#[derive(Clone, Copy, Debug, PartialEq, Eq)]
pub struct Fault {
    pub class: FaultClass,
    pub at: usize,
}

// Where reading goes on.
pub type Verdict = Result<usize, Fault>;

// One test on the byte at at.
pub fn test(ok: bool, class: FaultClass, at: usize) -> Result<(), Fault>
    ensures { result ≡ tested ok class at }
{
    if ok { Ok(()) } else { Err(Fault { class, at }) }
}

// Where a record of size bytes ends, if the table has it whole.
pub fn whole(t: &[u8], at: usize, size: usize) -> Verdict
    requires { (at ≤ 4294967296) × (size ≤ 65536) }
    ensures value { result ≡ unless_fault (leb (at + size) (length t.now)) FaultClass.Cut at (Ok (at + size)) }
    ensures inside { IfOk result (λ end. (end ≡ at + size) × (end ≤ length t.now)) }
{
    let end = at + size;
    test(end <= t.len(), FaultClass::Cut, at)?;
    Ok(end)
}
