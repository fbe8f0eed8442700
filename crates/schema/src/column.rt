// The columns of a schema: its leaves, each with its path and its levels.
ghost use Rattle.std.specs.Prelude.{◌≡◌, ℕ, ◌+◌, ◌<◌, ◌≤◌, Bool, List, [], ◌∷◌, ◌++◌, length, count_by};
ghost use Rattle.basic.specs.declared.types.Repetition.{Repetition};
ghost use Rattle.schema.specs.Columns.{parts, made, root_path, max_definition, max_repetition, repetition_of, defines as defines_level, repeats as repeats_level};

use crate::entry::{Header, Leaf};
use crate::limits::MAX_LEVELS;
use basic::Repetition;

/// The headers from right below the root down to a node.
#[derive(Clone, Copy)]
pub struct ColumnPath {
    // A path is `Copy`, which an `ArrayVec` is not: so an array with a length beside it.
    headers: [Header; MAX_LEVELS],
    len: usize,
}

/// The root's own path, which is empty.
// By hand, since an array of one value is made at once, where a derived one is made header by header: a table of columns
// is made for each image.
impl Default for ColumnPath {
    ghost is_default = { λ path. path ≡ root_path };

    fn default() -> ColumnPath {
        ColumnPath {
            headers: [Header::default(); MAX_LEVELS],
            len: 0,
        }
    }
}

/// A leaf with its path and the greatest levels of its values.
#[derive(Clone, Copy, Default)]
pub struct Column {
    pub path: ColumnPath,
    pub leaf: Leaf,
    pub max_def_level: u8,
    pub max_rep_level: u8,
}

impl Column {
    /// The column of a leaf at the end of a path.
    pub(crate) fn new(path: ColumnPath, leaf: Leaf) -> Column
        ensures { result ≡ made path leaf }
    {
        Column {
            path,
            leaf,
            max_def_level: path.max_def_level(),
            max_rep_level: path.max_rep_level(),
        }
    }
}

impl ColumnPath {
    /// The root's own path, which is empty.
    pub(crate) fn root() -> ColumnPath
        ensures { (parts result ≡ []) × (result.len ≡ 0) }
    {
        ColumnPath::default()
    }

    /// The path one node longer.
    pub(crate) fn child(self, header: Header) -> ColumnPath
        requires { self.len < 16 }
        ensures { (parts result ≡ parts self ++ header ∷ []) × (result.len ≡ self.len + 1) }
    {
        let mut longer = self;
        longer.headers[self.len] = header;
        longer.len = self.len + 1;
        longer
    }

    /// How many nodes the path has.
    pub(crate) fn depth(&self) -> usize
        ensures { result ≡ self.now.len }
    {
        self.len
    }

    /// The headers of the path's nodes, from right below the root down.
    pub fn headers(&self) -> &[Header]
        ensures parts { result.now ≡ parts self.now }
        ensures short { length result.now ≤ 16 }
    {
        &self.headers[0..self.len.min(MAX_LEVELS)]
    }

    /// How many of the nodes are not REQUIRED.
    pub(crate) fn max_def_level(&self) -> u8
        ensures { result ≡ max_definition (repetition_of (parts self.now)) }
    {
        self.count(defines)
    }

    /// How many of the nodes are REPEATED.
    pub(crate) fn max_rep_level(&self) -> u8
        ensures { result ≡ max_repetition (repetition_of (parts self.now)) }
    {
        self.count(repeats)
    }

    /// How many of the nodes add a level, by their repetition.
    fn count<F: Fn(Repetition) -> bool>(&self, adds: F) -> u8
        requires { F.IsAlwaysCallable adds }
        ensures { (test : Repetition → Bool) → ((r : Repetition) (b : Bool) → F.post adds r b → b ≡ test r) → result ≡ count_by test (repetition_of (parts self.now)) }
    {
        let headers = self.headers().iter();
        headers.filter(|header| adds(header.repetition)).count() as u8
    }
}

/// Whether a node adds a definition level to its path.
fn defines(repetition: Repetition) -> bool
    ensures { result ≡ defines_level repetition }
{
    repetition != Repetition::Required
}

/// Whether a node adds a repetition level to its path.
fn repeats(repetition: Repetition) -> bool
    ensures { result ≡ repeats_level repetition }
{
    repetition == Repetition::Repeated
}
