//! The closed lists that a schema image writes as numbers: repetitions, physical types, converted types.
#![tactic(auto)]

ghost use Rattle.std.specs.Prelude.{◌≡◌, ℕ, List, Some};
ghost use Rattle.std.specs.List.{slice_get};
ghost use Rattle.basic.specs.Codes.{decoded, Stands, repetition_code, repetitions, physical_code, physical_types, converted_code, converted_types, annotation_code, annotations, flag_code, flags};
ghost use Rattle.basic.specs.Coded.{repetition_back, physical_back, converted_back, annotation_back, flag_back};

mod names;
mod types;

pub use crate::types::{ConvertedType, PhysicalType, Repetition};

/// A closed list of cases, each with a number of its own.
pub trait Code: Sized {
    ghost number: { Self → ℕ };

    ghost cases: { List Self };

    /// The number of this case.
    // Here and below each impl has a body of its own: the cast from an enum, and its list of cases, stand in no trait that
    // one text for all could use.
    fn code(self) -> u8
        ensures { result ≡ number self };

    /// The case with this number.
    fn from_code(code: u64) -> Option<Self>
        ensures decodes { result ≡ decoded number cases code }
        ensures exact { Stands number code result };

    ghost reads_back: { (x : Self) → decoded number cases (number x) ≡ Some x };
}

/// The case that stands in a list at the place of this number.
fn case_at<C: Copy>(cases: &[C], code: u64) -> Option<C>
    ensures { result ≡ slice_get cases.now code }
{
    cases.get(code as usize).copied()
}

/// The repetitions, in the order of their numbers.
static REPETITIONS: [Repetition; 3] = [
    Repetition::Required,
    Repetition::Optional,
    Repetition::Repeated,
];

impl Code for Repetition {
    ghost number = { repetition_code };

    ghost cases = { repetitions };

    ghost reads_back = { repetition_back };

    fn code(self) -> u8 {
        self as u8
    }

    fn from_code(code: u64) -> Option<Repetition> {
        case_at(&REPETITIONS, code)
    }
}

/// The physical types, in the order of their numbers.
static PHYSICAL_TYPES: [PhysicalType; 8] = [
    PhysicalType::Boolean,
    PhysicalType::Int32,
    PhysicalType::Int64,
    PhysicalType::Int96,
    PhysicalType::Float,
    PhysicalType::Double,
    PhysicalType::ByteArray,
    PhysicalType::FixedLenByteArray,
];

impl Code for PhysicalType {
    ghost number = { physical_code };

    ghost cases = { physical_types };

    ghost reads_back = { physical_back };

    fn code(self) -> u8 {
        self as u8
    }

    fn from_code(code: u64) -> Option<PhysicalType> {
        case_at(&PHYSICAL_TYPES, code)
    }
}

/// The converted types, in the order of their numbers.
static CONVERTED_TYPES: [ConvertedType; 22] = [
    ConvertedType::Utf8,
    ConvertedType::Map,
    ConvertedType::MapKeyValue,
    ConvertedType::List,
    ConvertedType::Enum,
    ConvertedType::Decimal,
    ConvertedType::Date,
    ConvertedType::TimeMillis,
    ConvertedType::TimeMicros,
    ConvertedType::TimestampMillis,
    ConvertedType::TimestampMicros,
    ConvertedType::Uint8,
    ConvertedType::Uint16,
    ConvertedType::Uint32,
    ConvertedType::Uint64,
    ConvertedType::Int8,
    ConvertedType::Int16,
    ConvertedType::Int32,
    ConvertedType::Int64,
    ConvertedType::Json,
    ConvertedType::Bson,
    ConvertedType::Interval,
];

impl Code for ConvertedType {
    ghost number = { converted_code };

    ghost cases = { converted_types };

    ghost reads_back = { converted_back };

    fn code(self) -> u8 {
        self as u8
    }

    fn from_code(code: u64) -> Option<ConvertedType> {
        case_at(&CONVERTED_TYPES, code)
    }
}

impl Code for Option<ConvertedType> {
    ghost number = { annotation_code };

    ghost cases = { annotations };

    ghost reads_back = { annotation_back };

    fn code(self) -> u8 {
        self.map_or(0, |converted| converted as u8 + 1)
    }

    fn from_code(code: u64) -> Option<Option<ConvertedType>> {
        match code.checked_sub(1) {
            Some(below) => ConvertedType::from_code(below).map(Some),
            None => Some(None),
        }
    }
}

impl Code for bool {
    ghost number = { flag_code };

    ghost cases = { flags };

    ghost reads_back = { flag_back };

    fn code(self) -> u8 {
        self as u8
    }

    fn from_code(code: u64) -> Option<bool> {
        case_at(&[false, true], code)
    }
}
