// What a triplet at its column's maximal definition level carries.

/// Three numbers of 32 bits, as a legacy timestamp is stored: nanoseconds of the day in the first two,
/// lowest first, and the day in the third.
#[derive(Clone, Copy, Debug, Default, PartialEq, Eq)]
pub struct Int96 {
    pub low: u32,
    pub middle: u32,
    pub high: u32,
}

/// Bytes of a source's pool: where they begin, and how many there are.
#[derive(Clone, Copy, Debug, Default, PartialEq, Eq)]
pub struct Run {
    pub place: u64,
    pub length: u32,
}

/// A value of one of the three kinds.
#[derive(Clone, Copy, Debug, PartialEq, Eq)]
pub enum Value {
    Word(u64),
    Int96(Int96),
    Run(Run),
}
