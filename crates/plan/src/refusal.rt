// Why a plan is not built.
ghost use Rattle.std.specs.Prelude.{◌≡◌, Some};
ghost use Rattle.plan.specs.declared.refusal.BuildRefusal.TheVariants.{Image};
ghost use Rattle.plan.specs.Refusals.{refusal_number, reason};

use schema::ImageRefusal;
use std::fmt;

/// Why a plan is not built.
#[derive(Clone, Copy, Debug, PartialEq, Eq)]
pub enum BuildRefusal {
    /// The batch size is not 1 to 16.
    BatchSize,
    /// An image is refused.
    Image(ImageRefusal),
    /// A read group has no fields.
    EmptyGroup,
    /// A LIST group is no list.
    BadList,
    /// A MAP or MAP_KEY_VALUE group is no map.
    BadMap,
    /// A group annotated LIST, MAP or MAP_KEY_VALUE is REPEATED and no list's or map's middle.
    RepeatedCollection,
    /// A read leaf has the path of an earlier one.
    PathAgain,
    /// No file column has the path of a read leaf.
    PathMissing,
    /// The repetition of a node of the path differs from the file's.
    RepetitionDiffers,
    /// The file column has no conversion.
    NoConversion,
}

impl BuildRefusal {
    /// The refusal's number.
    // A match: a refused image has the number of its own refusal.
    pub fn number(self) -> u8
        ensures { result ≡ refusal_number self }
    {
        match self {
            BuildRefusal::BatchSize => 1,
            BuildRefusal::Image(refusal) => refusal.number(),
            BuildRefusal::EmptyGroup => 4,
            BuildRefusal::BadList => 5,
            BuildRefusal::BadMap => 6,
            BuildRefusal::RepeatedCollection => 7,
            BuildRefusal::PathAgain => 8,
            BuildRefusal::PathMissing => 9,
            BuildRefusal::RepetitionDiffers => 10,
            BuildRefusal::NoConversion => 11,
        }
    }
}

/// An image that is refused.
impl From<ImageRefusal> for BuildRefusal {
    ghost from_gives = { λ refusal e. e ≡ Image refusal };

    fn from(image: ImageRefusal) -> BuildRefusal {
        BuildRefusal::Image(image)
    }
}

/// Writes why the plan is refused.
impl fmt::Display for BuildRefusal {
    ghost output = { λ refusal. Some (reason refusal) };

    fn fmt<W: fmt::Write>(&self, f: &mut fmt::Formatter<W>) -> fmt::Result {
        match self {
            BuildRefusal::BatchSize => f.pad("the batch size is not 1 to 16"),
            BuildRefusal::Image(refusal) => refusal.fmt(f),
            BuildRefusal::EmptyGroup => f.pad("a read group has no fields"),
            BuildRefusal::BadList => f.pad("a LIST group is no list"),
            BuildRefusal::BadMap => f.pad("a MAP or MAP_KEY_VALUE group is no map"),
            BuildRefusal::RepeatedCollection => f.pad(
                "a group annotated LIST, MAP or MAP_KEY_VALUE is REPEATED and no list's or map's middle",
            ),
            BuildRefusal::PathAgain => f.pad("a read leaf has the path of an earlier one"),
            BuildRefusal::PathMissing => f.pad("no file column has the path of a read leaf"),
            BuildRefusal::RepetitionDiffers => f.pad(
                "the repetition of a node on a read leaf's path differs from the file's",
            ),
            BuildRefusal::NoConversion => f.pad("a used file column has no conversion"),
        }
    }
}
