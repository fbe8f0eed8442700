// What stands before the batches of a trace file.
ghost use Rattle.std.specs.Prelude.{◌^◌, ◌<◌, IfOk};
ghost use Rattle.varint.specs.Number.{encoding};
ghost use Rattle.trace_file.specs.Format.{image_bytes};
ghost use Rattle.trace_file.specs.Reading.{number_of, image_of};
ghost use Rattle.trace_file.specs.Answers.{AsRead, Means, ReadsBack, Took, Stood, same};

use crate::fault::{HeadError, Part};
use varint::NumberError;

/// The most bytes that a trace file has.
const MAX_LEN: usize = 0x7fff_ffff;

/// A trace file taken apart: the parts of its head, and the batches after it.
#[derive(Clone, Copy)]
pub struct Head<'a> {
    /// The schema of the columns stored.
    pub file_image: &'a [u8],
    /// The schema to read by; an empty one stands for the file's.
    pub read_image: &'a [u8],
    /// How many records are announced.
    pub records: u32,
    /// How many triplets of a column are asked for at once.
    pub batch_size: u64,
    /// All bytes after the head.
    pub batches: &'a [u8],
}

impl<'a> Head<'a> {
    /// Takes a trace file apart.
    #[tactic(auto, using(crate::proofs::Traces::refused_means, crate::proofs::Traces::read_back))]
    pub fn read(bytes: &'a [u8]) -> Result<Head<'a>, HeadError>
        ensures as_read { AsRead result bytes.now }
        ensures means { Means result bytes.now }
        ensures reads_back { ReadsBack result bytes.now }
    {
        if bytes.len() > MAX_LEN {
            return Err(HeadError::TooLong);
        }
        let (file_image, rest) = image(bytes, Part::FileImage)?;
        let (read_image, rest) = image(rest, Part::ReadImage)?;
        let (announced, rest) = number(rest, Part::Records)?;
        let records = u32::try_from(announced).map_err(|_| HeadError::ManyRecords)?;
        let (batch_size, batches) = number(rest, Part::BatchSize)?;
        Ok(Head {
            file_image,
            read_image,
            records,
            batch_size,
            batches,
        })
    }
}

/// The number that the bytes begin with, and the bytes after it.
fn number(bytes: &[u8], part: Part) -> Result<(u64, &[u8]), HeadError>
    ensures took { Took same result (number_of part bytes.now) }
    ensures stood { Stood encoding result bytes.now }
    ensures bound { IfOk result (λ p. p.0 < 2 ^ 64) }
{
    let (value, next) = varint::number(bytes, 0).map_err(|error| match error {
        NumberError::Truncated => HeadError::Truncated(part),
        NumberError::BadForm => HeadError::BadForm(part),
    })?;
    Ok((value, &bytes[next..]))
}

/// The length that the bytes begin with, so many bytes after it, and the bytes after them.
fn image(bytes: &[u8], part: Part) -> Result<(&[u8], &[u8]), HeadError>
    ensures took { Took (λ x. x.now) result (image_of part bytes.now) }
    ensures stood { Stood (λ image. image_bytes image.now) result bytes.now }
{
    let (len, rest) = number(bytes, part)?;
    rest.split_at_checked(len as usize)
        .ok_or(HeadError::Truncated(part))
}
