// Why an image is refused.
ghost use Rattle.std.specs.Prelude.{◌≡◌, Some};
ghost use Rattle.schema.specs.declared.refusal.ImageRefusal.TheVariants.{Malformed};
ghost use Rattle.schema.specs.Refusals.{refusal_number, refusal_text};

use std::fmt;
use varint::NumberError;

/// Why an image is refused.
#[derive(Clone, Copy, Debug, PartialEq, Eq)]
pub enum ImageRefusal {
    /// It ends inside, has a number, a code or a name in bad form, or bytes over.
    Malformed,
    /// It passes a limit.
    Limit,
}

impl ImageRefusal {
    /// The refusal's number.
    pub fn number(self) -> u8
        ensures { result ≡ refusal_number self }
    {
        self as u8 + 2
    }
}

impl fmt::Display for ImageRefusal {
    ghost output = { λ x. Some (refusal_text x) };

    fn fmt<W: fmt::Write>(&self, f: &mut fmt::Formatter<W>) -> fmt::Result {
        f.pad(match *self {
            ImageRefusal::Malformed => {
                "a schema image ends inside, has bytes over, or has a number, a code or a name in bad form"
            }
            ImageRefusal::Limit => {
                "a schema image passes a limit: 256 nodes, 64 leaves, 16 levels, 255 bytes of a name, 2^31 - 1 of a length, scale or precision"
            }
        })
    }
}

/// A number that cannot be read makes the image malformed.
impl From<NumberError> for ImageRefusal {
    ghost from_gives = { λ _ e. e ≡ Malformed };

    fn from(_: NumberError) -> Self {
        Self::Malformed
    }
}
