// Why a source stops, or does not do what it is asked for.
ghost use Rattle.std.specs.Prelude.{◌≡◌};
ghost use Rattle.column.specs.Faults.{fault_number};

/// What is wrong.
#[derive(Clone, Copy, Debug, PartialEq, Eq)]
pub enum SourceFaultKind {
    /// More entries, or bytes of memory, than 2^31 - 1.
    TooLarge,
    /// The bytes end inside.
    Truncated,
    /// A number is in bad form or out of range.
    BadNumber,
    /// No such column, or no levels.
    BadColumn,
    /// The number of values is wrong, or the kind of one.
    BadValues,
    /// A run is too long, or lies outside the pool.
    BadRun,
    /// The call asks for what cannot be asked for.
    Misuse,
}

/// What is wrong, and at which byte or entry from 0.
#[derive(Clone, Copy, Debug, PartialEq, Eq)]
pub struct SourceFault {
    pub kind: SourceFaultKind,
    pub place: u64,
}

/// What a call answers that asks for what cannot be asked for.
pub const MISUSE: SourceFault = SourceFault {
    kind: SourceFaultKind::Misuse,
    place: 0,
};

impl SourceFaultKind {
    /// The fault's number.
    pub fn number(self) -> u8
        ensures { result ≡ fault_number self }
    {
        self as u8 + 1
    }
}
