// The names of the cases, as the format writes them.
ghost use Rattle.std.specs.Prelude.{◌≡◌, Some};
ghost use Rattle.basic.specs.Names.{repetition_name, physical_name, converted_name};

use crate::types::{ConvertedType, PhysicalType, Repetition};
use std::fmt;

impl Repetition {
    /// The name in the format.
    pub fn name(self) -> &'static str
        ensures { result.now ≡ repetition_name self }
    {
        match self {
            Repetition::Required => "REQUIRED",
            Repetition::Optional => "OPTIONAL",
            Repetition::Repeated => "REPEATED",
        }
    }
}

impl fmt::Display for Repetition {
    ghost output = { λ x. Some (repetition_name x) };

    fn fmt<W: fmt::Write>(&self, f: &mut fmt::Formatter<W>) -> fmt::Result {
        f.pad(self.name())
    }
}

impl PhysicalType {
    /// The name in the format.
    pub fn name(self) -> &'static str
        ensures { result.now ≡ physical_name self }
    {
        match self {
            PhysicalType::Boolean => "BOOLEAN",
            PhysicalType::Int32 => "INT32",
            PhysicalType::Int64 => "INT64",
            PhysicalType::Int96 => "INT96",
            PhysicalType::Float => "FLOAT",
            PhysicalType::Double => "DOUBLE",
            PhysicalType::ByteArray => "BYTE_ARRAY",
            PhysicalType::FixedLenByteArray => "FIXED_LEN_BYTE_ARRAY",
        }
    }
}

impl fmt::Display for PhysicalType {
    ghost output = { λ x. Some (physical_name x) };

    fn fmt<W: fmt::Write>(&self, f: &mut fmt::Formatter<W>) -> fmt::Result {
        f.pad(self.name())
    }
}

impl ConvertedType {
    /// The name in the format.
    pub fn name(self) -> &'static str
        ensures { result.now ≡ converted_name self }
    {
        match self {
            ConvertedType::Utf8 => "UTF8",
            ConvertedType::Map => "MAP",
            ConvertedType::MapKeyValue => "MAP_KEY_VALUE",
            ConvertedType::List => "LIST",
            ConvertedType::Enum => "ENUM",
            ConvertedType::Decimal => "DECIMAL",
            ConvertedType::Date => "DATE",
            ConvertedType::TimeMillis => "TIME_MILLIS",
            ConvertedType::TimeMicros => "TIME_MICROS",
            ConvertedType::TimestampMillis => "TIMESTAMP_MILLIS",
            ConvertedType::TimestampMicros => "TIMESTAMP_MICROS",
            ConvertedType::Uint8 => "UINT_8",
            ConvertedType::Uint16 => "UINT_16",
            ConvertedType::Uint32 => "UINT_32",
            ConvertedType::Uint64 => "UINT_64",
            ConvertedType::Int8 => "INT_8",
            ConvertedType::Int16 => "INT_16",
            ConvertedType::Int32 => "INT_32",
            ConvertedType::Int64 => "INT_64",
            ConvertedType::Json => "JSON",
            ConvertedType::Bson => "BSON",
            ConvertedType::Interval => "INTERVAL",
        }
    }
}

impl fmt::Display for ConvertedType {
    ghost output = { λ x. Some (converted_name x) };

    fn fmt<W: fmt::Write>(&self, f: &mut fmt::Formatter<W>) -> fmt::Result {
        f.pad(self.name())
    }
}
