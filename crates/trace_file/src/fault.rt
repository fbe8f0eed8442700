// Why bytes are no trace file.
use std::fmt;

/// A part of the head.
#[derive(Clone, Copy, Debug, PartialEq, Eq)]
pub enum Part {
    /// The file image and its length.
    FileImage,
    /// The read image and its length.
    ReadImage,
    /// The number of records.
    Records,
    /// The batch size.
    BatchSize,
}

/// Why bytes are no trace file.
#[derive(Clone, Copy, Debug, PartialEq, Eq)]
pub enum HeadError {
    /// There are 2^31 bytes or more.
    TooLong,
    /// The bytes end inside this part.
    Truncated(Part),
    /// The number of this part is not in shortest form, or passes 2^64 - 1.
    BadForm(Part),
    /// It announces 2^32 records or more.
    ManyRecords,
}

impl fmt::Display for Part {
    fn fmt<W: fmt::Write>(&self, f: &mut fmt::Formatter<W>) -> fmt::Result {
        let name = match *self {
            Part::FileImage => "file image",
            Part::ReadImage => "read image",
            Part::Records => "number of records",
            Part::BatchSize => "batch size",
        };
        f.pad(name)
    }
}

impl fmt::Display for HeadError {
    fn fmt<W: fmt::Write>(&self, f: &mut fmt::Formatter<W>) -> fmt::Result {
        match *self {
            HeadError::TooLong => f.pad("the file has 2^31 bytes or more"),
            HeadError::Truncated(part) => write!(f, "the file ends inside its head, in the {part}"),
            HeadError::BadForm(part) => write!(f, "the {part} has a number in bad form"),
            HeadError::ManyRecords => f.pad("the file announces 2^32 records or more"),
        }
    }
}
