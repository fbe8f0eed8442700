// What a leaf is shown as, and how its values are delivered.
ghost use Rattle.std.specs.Prelude.{◌≡◌, Some};
ghost use Rattle.plan.specs.Kinds.{field_number, field_name, value_kind, from_int32, from_int64, from_byte_array, from_fixed, shown_by, is_float16, shown_kind, KindExamples};

use basic::{ConvertedType, PhysicalType};
use schema::Leaf;
use std::fmt;

/// What a cell of a row shows: null, a leaf's value, a group, a list or a map.
#[derive(Clone, Copy, Debug, Default, PartialEq, Eq)]
pub enum FieldKind {
    #[default]
    Null,
    Bool,
    Byte,
    Short,
    Int,
    Long,
    UByte,
    UShort,
    UInt,
    ULong,
    Float16,
    Float,
    Double,
    Decimal,
    Str,
    Bytes,
    Date,
    TimeMillis,
    TimeMicros,
    TimestampMillis,
    TimestampMicros,
    Group,
    ListInternal,
    MapInternal,
}

impl FieldKind {
    /// The kind's number, from 0.
    pub fn number(self) -> u8
        ensures number { result ≡ field_number self }
        ensures worked_examples { KindExamples }
    {
        self as u8
    }
}

/// Writes the kind's name.
impl fmt::Display for FieldKind {
    ghost output = { λ kind. Some (field_name kind) };

    fn fmt<W: fmt::Write>(&self, f: &mut fmt::Formatter<W>) -> fmt::Result {
        f.pad(match self {
            FieldKind::Null => "Null",
            FieldKind::Bool => "Bool",
            FieldKind::Byte => "Byte",
            FieldKind::Short => "Short",
            FieldKind::Int => "Int",
            FieldKind::Long => "Long",
            FieldKind::UByte => "UByte",
            FieldKind::UShort => "UShort",
            FieldKind::UInt => "UInt",
            FieldKind::ULong => "ULong",
            FieldKind::Float16 => "Float16",
            FieldKind::Float => "Float",
            FieldKind::Double => "Double",
            FieldKind::Decimal => "Decimal",
            FieldKind::Str => "Str",
            FieldKind::Bytes => "Bytes",
            FieldKind::Date => "Date",
            FieldKind::TimeMillis => "TimeMillis",
            FieldKind::TimeMicros => "TimeMicros",
            FieldKind::TimestampMillis => "TimestampMillis",
            FieldKind::TimestampMicros => "TimestampMicros",
            FieldKind::Group => "Group",
            FieldKind::ListInternal => "ListInternal",
            FieldKind::MapInternal => "MapInternal",
        })
    }
}

/// How the values of a column are delivered.
#[derive(Clone, Copy, Debug, Default, PartialEq, Eq)]
pub enum ValueKind {
    /// 64 bits.
    #[default]
    Word,
    /// Three numbers of 32 bits.
    Int96,
    /// A run of bytes.
    Run,
}

/// How the values of a physical type are delivered.
impl From<PhysicalType> for ValueKind {
    ghost from_gives = { λ physical kind. kind ≡ value_kind physical };

    fn from(physical: PhysicalType) -> ValueKind {
        match physical {
            PhysicalType::Boolean
            | PhysicalType::Int32
            | PhysicalType::Int64
            | PhysicalType::Float
            | PhysicalType::Double => ValueKind::Word,
            PhysicalType::Int96 => ValueKind::Int96,
            PhysicalType::ByteArray | PhysicalType::FixedLenByteArray => ValueKind::Run,
        }
    }
}

/// What INT32 is shown as under an annotation, if it converts.
fn from_int32(annotation: Option<ConvertedType>) -> Option<FieldKind>
    ensures { result ≡ shown_by from_int32 annotation }
{
    match annotation {
        None | Some(ConvertedType::Int32) => Some(FieldKind::Int),
        Some(ConvertedType::Int8) => Some(FieldKind::Byte),
        Some(ConvertedType::Int16) => Some(FieldKind::Short),
        Some(ConvertedType::Uint8) => Some(FieldKind::UByte),
        Some(ConvertedType::Uint16) => Some(FieldKind::UShort),
        Some(ConvertedType::Uint32) => Some(FieldKind::UInt),
        Some(ConvertedType::Date) => Some(FieldKind::Date),
        Some(ConvertedType::TimeMillis) => Some(FieldKind::TimeMillis),
        Some(ConvertedType::Decimal) => Some(FieldKind::Decimal),
        _ => None,
    }
}

/// What INT64 is shown as under an annotation, if it converts.
fn from_int64(annotation: Option<ConvertedType>) -> Option<FieldKind>
    ensures { result ≡ shown_by from_int64 annotation }
{
    match annotation {
        None | Some(ConvertedType::Int64) => Some(FieldKind::Long),
        Some(ConvertedType::Uint64) => Some(FieldKind::ULong),
        Some(ConvertedType::TimeMicros) => Some(FieldKind::TimeMicros),
        Some(ConvertedType::TimestampMillis) => Some(FieldKind::TimestampMillis),
        Some(ConvertedType::TimestampMicros) => Some(FieldKind::TimestampMicros),
        Some(ConvertedType::Decimal) => Some(FieldKind::Decimal),
        _ => None,
    }
}

/// What BYTE_ARRAY is shown as under an annotation, if it converts.
fn from_byte_array(annotation: Option<ConvertedType>) -> Option<FieldKind>
    ensures { result ≡ shown_by from_byte_array annotation }
{
    match annotation {
        None | Some(ConvertedType::Bson) => Some(FieldKind::Bytes),
        Some(ConvertedType::Utf8 | ConvertedType::Enum | ConvertedType::Json) => {
            Some(FieldKind::Str)
        }
        Some(ConvertedType::Decimal) => Some(FieldKind::Decimal),
        _ => None,
    }
}

/// What FIXED_LEN_BYTE_ARRAY is shown as under an annotation, if it converts.
fn from_fixed(annotation: Option<ConvertedType>) -> Option<FieldKind>
    ensures { result ≡ shown_by from_fixed annotation }
{
    match annotation {
        None => Some(FieldKind::Bytes),
        Some(ConvertedType::Decimal) => Some(FieldKind::Decimal),
        _ => None,
    }
}

/// Whether a leaf's flag for Float16 counts: on FIXED_LEN_BYTE_ARRAY without an annotation.
fn is_float16(leaf: Leaf, annotation: Option<ConvertedType>) -> bool
    ensures { result ≡ is_float16 leaf annotation }
{
    matches!(
        (leaf.physical, annotation, leaf.float16),
        (PhysicalType::FixedLenByteArray, None, true)
    )
}

/// What a leaf is shown as, if it converts.
#[tactic(auto, unfolding(crate::specs::Kinds::shown_kind, crate::specs::Kinds::kind_under))]
pub(crate) fn shown_kind(leaf: Leaf, annotation: Option<ConvertedType>) -> Option<FieldKind>
    ensures { result ≡ shown_kind leaf annotation }
{
    if is_float16(leaf, annotation) {
        return Some(FieldKind::Float16);
    }
    match leaf.physical {
        PhysicalType::Boolean => Some(FieldKind::Bool),
        PhysicalType::Int32 => from_int32(annotation),
        PhysicalType::Int64 => from_int64(annotation),
        PhysicalType::Int96 => Some(FieldKind::TimestampMillis),
        PhysicalType::Float => Some(FieldKind::Float),
        PhysicalType::Double => Some(FieldKind::Double),
        PhysicalType::ByteArray => from_byte_array(annotation),
        PhysicalType::FixedLenByteArray => from_fixed(annotation),
    }
}
