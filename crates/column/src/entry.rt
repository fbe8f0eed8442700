// One entry of a list.
use value::Value;

/// A triplet, and the number of its column.
#[derive(Clone, Copy)]
pub struct Entry {
    pub column: usize,
    pub repetition: u8,
    pub definition: u8,
    pub value: Option<Value>,
}
