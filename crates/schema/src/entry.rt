// What the table keeps of a node.
ghost use Rattle.std.specs.Prelude.{◌≡◌};
ghost use Rattle.schema.specs.declared.entry.Body.TheVariants.{Group};

use basic::{ConvertedType, PhysicalType, Repetition};

/// A name's place in the image.
#[derive(Clone, Copy, Default)]
pub struct Name {
    // A place and no slice: with a slice each type that has a name would carry a lifetime, which asks more of callers.
    pub start: usize,
    pub len: usize,
}

/// What every node has: its name, its repetition and its annotation.
#[derive(Clone, Copy, Default)]
pub struct Header {
    pub name: Name,
    pub repetition: Repetition,
    pub annotation: Option<ConvertedType>,
}

/// What a leaf has besides.
#[derive(Clone, Copy, Default)]
pub struct Leaf {
    pub physical: PhysicalType,
    pub length: u32,
    pub scale: u32,
    pub precision: u32,
    pub float16: bool,
}

/// A group with its number of fields, or a leaf.
#[derive(Clone, Copy)]
pub enum Body {
    Group(u64),
    Primitive(Leaf),
}

/// A group with no fields.
// By hand: `#[default]` stands on a case without a value only.
impl Default for Body {
    ghost is_default = { λ b. b ≡ Group 0 };

    fn default() -> Body {
        Body::Group(0)
    }
}

/// A node as it stands in the image.
#[derive(Clone, Copy, Default)]
pub struct NodeEntry {
    pub header: Header,
    pub body: Body,
}
