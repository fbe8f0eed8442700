// The cells that a row is laid out in.
use plan::FieldKind;

/// What a cell tells: a field as shown, or a leaf's value as stored.
#[derive(Clone, Copy)]
pub enum CellKind {
    Shown(FieldKind),
    /// 64 bits.
    StoredWord,
    /// Three numbers of 32 bits: the first two in the word, the lower first, and the third as the count.
    StoredInt96,
    /// A run of bytes.
    StoredRun,
}

/// One cell of a row. Fields that its kind does not use are 0.
#[derive(Clone, Copy)]
pub struct Cell {
    pub kind: CellKind,
    /// The read node, in image order from 0.
    pub node: u32,
    /// How many fields, elements or pairs follow.
    pub count: u32,
    pub word: u64,
    /// Where its bytes begin among those of the row.
    pub start: u64,
    /// How many bytes it has.
    pub length: u32,
}
