//! What may come next in well-formed UTF-8.
ghost use Rattle.utf8.specs.States.{awaits, first_of};
ghost use Rattle.utf8.specs.Unicode.{follow};
ghost use Rattle.std.specs.Prelude.{◌≡◌};

use super::class::ByteClass;
use super::class::ByteClass::*;
use State::*;

/// What may come next. The trailing bytes are 80..BF.
#[derive(Clone, Copy)]
pub(crate) enum State {
    /// A new sequence.
    Sequence,
    /// One trailing byte.
    One,
    /// Two trailing bytes.
    Two,
    /// Three trailing bytes.
    Three,
    /// A0..BF and one trailing byte, after E0: what is below has a shorter form.
    TwoNotOverlong,
    /// 80..9F and one trailing byte, after ED: what is above is a surrogate.
    TwoNotSurrogate,
    /// 90..BF and two trailing bytes, after F0: what is below has a shorter form.
    ThreeNotOverlong,
    /// 80..8F and two trailing bytes, after F4: above is no code point.
    ThreeInRange,
    /// Nothing: a byte was wrong, and the bytes stay ill-formed.
    Nothing,
}

impl State {
    /// The state after a byte of the class.
    pub(crate) fn next(self, class: ByteClass) -> State
        ensures { awaits result ≡ follow (awaits self) (first_of class) }
    {
        match (self, class) {
            (Sequence, Ascii) => Sequence,
            (Sequence, Lead2) => One,
            (Sequence, Lead3) => Two,
            (Sequence, Lead4) => Three,
            (Sequence, LeadE0) => TwoNotOverlong,
            (Sequence, LeadED) => TwoNotSurrogate,
            (Sequence, LeadF0) => ThreeNotOverlong,
            (Sequence, LeadF4) => ThreeInRange,
            (One, Tail80 | Tail90 | TailA0) => Sequence,
            (Two, Tail80 | Tail90 | TailA0) => One,
            (Three, Tail80 | Tail90 | TailA0) => Two,
            (TwoNotOverlong, TailA0) => One,
            (TwoNotSurrogate, Tail80 | Tail90) => One,
            (ThreeNotOverlong, Tail90 | TailA0) => Two,
            (ThreeInRange, Tail80) => Two,
            _ => Nothing,
        }
    }
}
