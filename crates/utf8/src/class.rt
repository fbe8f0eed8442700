//! What each byte can be in well-formed UTF-8.
ghost use Rattle.utf8.specs.States.{Alike, first_of};

use ByteClass::*;

/// A class of bytes that can stand in the same places.
#[derive(Clone, Copy)]
pub(crate) enum ByteClass {
    /// 00..7F: a sequence of its own.
    Ascii,
    /// 80..8F: a trailing byte.
    Tail80,
    /// 90..9F: a trailing byte.
    Tail90,
    /// A0..BF: a trailing byte.
    TailA0,
    /// C0, C1 and F5..FF: in no sequence.
    Never,
    /// C2..DF: the first of two.
    Lead2,
    /// E0: the first of three, the next not below A0.
    LeadE0,
    /// E1..EC, EE and EF: the first of three.
    Lead3,
    /// ED: the first of three, the next not above 9F.
    LeadED,
    /// F0: the first of four, the next not below 90.
    LeadF0,
    /// F1..F3: the first of four.
    Lead4,
    /// F4: the first of four, the next not above 8F.
    LeadF4,
}

/// The class of each byte, eight to a row.
static CLASSES: [[ByteClass; 8]; 32] = [
    // 00..7F
    [Ascii; 8],
    [Ascii; 8],
    [Ascii; 8],
    [Ascii; 8],
    [Ascii; 8],
    [Ascii; 8],
    [Ascii; 8],
    [Ascii; 8],
    [Ascii; 8],
    [Ascii; 8],
    [Ascii; 8],
    [Ascii; 8],
    [Ascii; 8],
    [Ascii; 8],
    [Ascii; 8],
    [Ascii; 8],
    // 80..8F
    [Tail80; 8],
    [Tail80; 8],
    // 90..9F
    [Tail90; 8],
    [Tail90; 8],
    // A0..BF
    [TailA0; 8],
    [TailA0; 8],
    [TailA0; 8],
    [TailA0; 8],
    // C0..DF
    [Never, Never, Lead2, Lead2, Lead2, Lead2, Lead2, Lead2],
    [Lead2; 8],
    [Lead2; 8],
    [Lead2; 8],
    // E0..EF
    [LeadE0, Lead3, Lead3, Lead3, Lead3, Lead3, Lead3, Lead3],
    [Lead3, Lead3, Lead3, Lead3, Lead3, LeadED, Lead3, Lead3],
    // F0..FF
    [LeadF0, Lead4, Lead4, Lead4, LeadF4, Never, Never, Never],
    [Never; 8],
];

impl ByteClass {
    /// The class of a byte.
    // No `From`: what it says is no equation, but that the byte is alike the first of its class.
    pub(crate) fn of(byte: u8) -> ByteClass
        ensures { Alike byte (first_of result) }
    {
        CLASSES[(byte / 8) as usize][(byte % 8) as usize]
    }
}
