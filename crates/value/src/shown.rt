// What values are shown as.
ghost use Rattle.std.specs.Prelude.{◌≡◌, ℕ, ◌%◌, ◌^◌, ◌<◌, length, pos, ◌-ℤ◌, if◌then◌else◌, Some, None, nat_eq};
ghost use Rattle.std.specs.Int.Digits.{number_from_digits, AllBelowBase};
ghost use Rattle.value.specs.Numbers.{signed, word_of, big_endian, little_endian, day_of, nanos_of, days_in_millis, millis_of, Cut};
ghost use Rattle.value.specs.Leaves.{word_fits, reading, read_as, Reads};
ghost use Rattle.value.specs.Examples.{ShownExamples, FittingExamples};

use crate::types::Int96;
use basic::PhysicalType;
use plan::FieldKind;

/// The day on which 1970 begins.
const JULIAN_DAY_OF_EPOCH: i64 = 2_440_588;

const MILLISECONDS_IN_DAY: i64 = 86_400_000;

const NANOSECONDS_IN_MILLISECOND: i64 = 1_000_000;

/// Whether a leaf of this physical type takes the word.
#[tactic(auto, using(crate::proofs::Samples::fitting_examples))]
pub fn word_fits(physical: PhysicalType, word: u64) -> bool
    ensures fits { result ≡ word_fits physical word }
    ensures worked_examples { FittingExamples }
{
    match physical {
        PhysicalType::Boolean => word < 2,
        PhysicalType::Int32 | PhysicalType::Float => word <= u64::from(u32::MAX),
        PhysicalType::Int64 | PhysicalType::Double => true,
        PhysicalType::Int96 | PhysicalType::ByteArray | PhysicalType::FixedLenByteArray => false,
    }
}

/// The word that a leaf of this kind shows for a stored word: a signed one is narrowed to its width and extended by its
/// sign, an unsigned one narrowed. A kind that shows no word gives 0.
#[tactic(auto, using(crate::proofs::Readings::means, crate::proofs::Readings::whole_signed, crate::proofs::Readings::whole_plain, crate::proofs::Samples::shown_examples))]
pub fn shown_word(kind: FieldKind, word: u64) -> u64
    ensures shows { result ≡ read_as (reading kind) word }
    ensures means { Reads (reading kind) word result }
    ensures worked_examples { ShownExamples }
{
    match kind {
        FieldKind::Byte => extended(word, 8),
        FieldKind::Short => extended(word, 16),
        FieldKind::Int | FieldKind::Date | FieldKind::TimeMillis => extended(word, 32),
        FieldKind::UByte => low(word, 8),
        FieldKind::UShort | FieldKind::Float16 => low(word, 16),
        FieldKind::UInt => low(word, 32),
        FieldKind::Bool
        | FieldKind::Long
        | FieldKind::ULong
        | FieldKind::Float
        | FieldKind::Double
        | FieldKind::TimeMicros
        | FieldKind::TimestampMillis
        | FieldKind::TimestampMicros => word,
        FieldKind::Null
        | FieldKind::Decimal
        | FieldKind::Str
        | FieldKind::Bytes
        | FieldKind::Group
        | FieldKind::ListInternal
        | FieldKind::MapInternal => 0,
    }
}

/// The low bits of a word, so many.
fn low(word: u64, bits: u32) -> u64
    requires { bits < 64 }
    ensures { result ≡ word % 2 ^ bits }
{
    word % (1 << bits)
}

/// The word of 64 bits with the signed value of the low bits of a word, so many.
// Up to the top of the word and back, where the shift copies the sign.
fn extended(word: u64, bits: u32) -> u64
    requires some { 0 < bits }
    requires fewer { bits < 64 }
    ensures { result ≡ word_of (signed bits word) }
{
    let above = 64 - bits;
    ((word << above).cast_signed() >> above).cast_unsigned()
}

impl Int96 {
    /// The Julian day.
    fn day(self) -> i32
        ensures { result ≡ day_of self.high }
    {
        self.high.cast_signed()
    }

    /// The nanoseconds of that day.
    fn nanoseconds(self) -> i64
        ensures { result ≡ nanos_of self.low self.middle }
    {
        (u64::from(self.low) + (u64::from(self.middle) << 32)).cast_signed()
    }

    /// The milliseconds since the beginning of 1970.
    pub fn to_millis(self) -> i64
        ensures milliseconds { result ≡ millis_of self.low self.middle self.high }
        ensures cut { Cut (nanos_of self.low self.middle) 1000000 (result -ℤ days_in_millis (day_of self.high)) }
    {
        (i64::from(self.day()) - JULIAN_DAY_OF_EPOCH) * MILLISECONDS_IN_DAY
            + self.nanoseconds() / NANOSECONDS_IN_MILLISECOND
    }
}

/// The bits of a Float16 that is stored in these bytes, the lowest first. Only two bytes make one.
pub fn float16(bytes: &[u8]) -> Option<u16>
    ensures two_bytes { result ≡ (if nat_eq (length bytes.now) 2 then Some (little_endian bytes.now) else None) }
{
    match bytes {
        [low, high] => Some(u16::from_le_bytes([*low, *high])),
        _ => None,
    }
}

/// A number that a decimal is stored as, in so many bytes: an INT32 or an INT64.
pub trait Decimal<const N: usize>: Sized {
    ghost number: { Self → ℕ };

    /// The bytes of the decimal, the highest first.
    fn decimal(self) -> [u8; N]
        ensures shows { result ≡ big_endian N (number self) }
        ensures writes { (length result ≡ N) × AllBelowBase 256 result × (number_from_digits 256 result ≡ number self) };
}

// Each impl has a body of its own: `to_be_bytes` stands in no trait of std that one text for both could use.
impl Decimal<4> for u32 {
    ghost number = { λ int. int };

    fn decimal(self) -> [u8; 4] {
        u32::to_be_bytes(self)
    }
}

impl Decimal<8> for u64 {
    ghost number = { λ long. long };

    fn decimal(self) -> [u8; 8] {
        u64::to_be_bytes(self)
    }
}
