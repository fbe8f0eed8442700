// A stored case.
ghost use Rattle.std.specs.Prelude.{◌<◌, IfOk};

use std::alloc::{AllocError, AllocFailed, Global};
use std::fmt;

/// What a case is about.
#[derive(Clone, Copy, Debug, PartialEq, Eq, PartialOrd, Ord)]
pub enum Group {
    /// Whether bytes are well-formed UTF-8.
    Utf8,
    /// The number that bytes begin with.
    Number,
    /// The columns of a schema image.
    Image,
    /// The nodes of a schema image.
    Nodes,
    /// The parts of a trace file.
    Head,
    /// The plan that builds, one after the other, leave.
    Plan,
}

/// All groups, in the order of the report.
pub(crate) const GROUPS: [Group; 6] = [
    Group::Utf8,
    Group::Number,
    Group::Image,
    Group::Nodes,
    Group::Head,
    Group::Plan,
];

impl Group {
    /// The group's name in a line.
    // A text, which `Display` writes and `named` compares.
    pub(crate) fn name(self) -> &'static str {
        match self {
            Group::Utf8 => "utf8",
            Group::Number => "number",
            Group::Image => "image",
            Group::Nodes => "nodes",
            Group::Head => "head",
            Group::Plan => "plan",
        }
    }

    fn named(name: &str) -> Option<Group> {
        GROUPS.iter().copied().find(|group| group.name() == name)
    }
}

impl fmt::Display for Group {
    fn fmt<W: fmt::Write>(&self, f: &mut fmt::Formatter<W>) -> fmt::Result {
        f.pad(self.name())
    }
}

/// Why a line is no case.
#[derive(Clone, Copy, Debug)]
pub enum CaseError {
    /// Memory ran out.
    Memory(AllocError),
    /// It has not the form of a case.
    Form,
}

impl From<AllocError> for CaseError {
    fn from(error: AllocError) -> CaseError {
        CaseError::Memory(error)
    }
}

impl<T: Drop> From<AllocFailed<T>> for CaseError {
    fn from(failed: AllocFailed<T>) -> CaseError {
        CaseError::Memory(AllocError::from(failed))
    }
}

/// Bytes, and the answer expected of them.
#[derive(Drop)]
pub struct Case<'a> {
    pub group: Group,
    pub digits: &'a str,
    pub bytes: Vec<u8>,
    pub expected: &'a str,
}

impl<'a> Case<'a> {
    /// The case of a line.
    // It takes an allocator, which `FromStr` and `TryFrom` don't.
    pub(crate) fn parse(heap: Global, line: &'a str) -> Result<Case<'a>, CaseError> {
        let (name, rest) = line.split_once(' ').ok_or(CaseError::Form)?;
        let (digits, expected) = rest.split_once(' ').ok_or(CaseError::Form)?;
        Ok(Case {
            group: Group::named(name).ok_or(CaseError::Form)?,
            digits,
            bytes: unhex(heap, digits)?,
            expected,
        })
    }
}

/// The bytes that hexadecimal digits stand for; `-` stands for none.
fn unhex(heap: Global, digits: &str) -> Result<Vec<u8>, CaseError> {
    let mut bytes = Vec::new(heap);
    if digits == "-" {
        return Ok(bytes);
    }
    for pair in digits.as_bytes().chunks(2) {
        let [high, low] = pair else {
            return Err(CaseError::Form);
        };
        let high = digit(*high)?;
        let low = digit(*low)?;
        bytes.push(16 * high + low)?;
    }
    Ok(bytes)
}

/// The worth of a hexadecimal digit.
// Lower case alone, where `char::to_digit` takes both.
fn digit(byte: u8) -> Result<u8, CaseError>
    ensures { IfOk result (λ d. d < 16) }
{
    match byte {
        b'0'..=b'9' => Ok(byte - b'0'),
        b'a'..=b'f' => Ok(byte - b'a' + 10),
        _ => Err(CaseError::Form),
    }
}
