// The parts of a node in an image, each read at a cursor, which then stands after it.
ghost use Rattle.std.specs.Prelude.{◌≡◌, ℕ, ◌+◌, ◌^◌, ◌<◌, ◌≤◌, length};

use crate::entry::{Header, Leaf, Name};
use crate::limits::{MAX_NAME, NUMBER_LIMIT};
use crate::refusal::ImageRefusal;
use basic::Code;
use utf8::is_utf8;

/// An image, and the place in it that is read next.
#[derive(Drop)]
pub(crate) struct Cursor<'a> {
    image: &'a [u8],
    at: usize,
    ghost inside: { at ≤ length image.now },
}

impl<'a> Cursor<'a> {
    ghost use Rattle.basic.specs.Codes.{decoded};
    ghost use Rattle.schema.specs.Reading.{number_here, bounded_in, code_in, name_in, heading_in, leaf_in};
    ghost use Rattle.schema.specs.Places.{Reads, rest, plain, named, headed};

    /// The cursor at the front of an image.
    pub(crate) fn new(image: &'a [u8]) -> Cursor<'a>
        ensures over { result.image.now ≡ image.now }
        ensures all { rest result ≡ image.now }
    {
        Cursor { image, at: 0 }
    }

    /// How many bytes are left.
    pub(crate) fn left(&self) -> usize
        ensures { result ≡ length (rest self.now) }
    {
        self.image.len() - self.at
    }

    /// The next number.
    pub(crate) fn number(&mut self) -> Result<u64, ImageRefusal>
        ensures { Reads plain result self.old self.new (number_here (rest self.old)) }
    {
        let (value, next) = varint::number(self.image, self.at)?;
        self.at = next;
        Ok(value)
    }

    /// A number below 2^31.
    pub(crate) fn bounded(&mut self) -> Result<u32, ImageRefusal>
        ensures { Reads plain result self.old self.new (bounded_in (rest self.old)) }
    {
        let value = self.number()?;
        if value >= NUMBER_LIMIT {
            return Err(ImageRefusal::Limit);
        }
        Ok(value as u32)
    }

    /// The number of a case.
    pub(crate) fn code<C: Code>(&mut self) -> Result<C, ImageRefusal>
        ensures { Reads plain result self.old self.new (code_in C.Code.number C.Code.cases (rest self.old)) }
    {
        let value = self.number()?;
        C::from_code(value).ok_or(ImageRefusal::Malformed)
    }

    /// A length, and so many bytes of text.
    pub(crate) fn name(&mut self) -> Result<Name, ImageRefusal>
        ensures { Reads named result self.old self.new (name_in (rest self.old)) }
    {
        let len = self.number()?;
        if len > MAX_NAME {
            return Err(ImageRefusal::Limit);
        }
        let len = len as usize;
        if len > self.left() {
            return Err(ImageRefusal::Malformed);
        }
        let start = self.at;
        let end = start + len;
        if !is_utf8(&self.image[start..end]) {
            return Err(ImageRefusal::Malformed);
        }
        self.at = end;
        Ok(Name { start, len })
    }

    /// What every node but the root begins with.
    pub(crate) fn header(&mut self) -> Result<Header, ImageRefusal>
        ensures { Reads headed result self.old self.new (heading_in (rest self.old)) }
    {
        Ok(Header {
            name: self.name()?,
            repetition: self.code()?,
            annotation: self.code()?,
        })
    }

    /// What a leaf has after its kind.
    pub(crate) fn leaf(&mut self) -> Result<Leaf, ImageRefusal>
        ensures { Reads plain result self.old self.new (leaf_in (rest self.old)) }
    {
        Ok(Leaf {
            physical: self.code()?,
            length: self.bounded()?,
            scale: self.bounded()?,
            precision: self.bounded()?,
            float16: self.code()?,
        })
    }
}
