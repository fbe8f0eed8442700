//! Well-formed UTF-8, checked in one pass over bytes that may come in pieces.
#![tactic(auto)]

ghost use Rattle.std.specs.Prelude.{◌≡◌, ℕ, true, List, [], ◌++◌};
ghost use Rattle.utf8.specs.Examples.{examples, Answered};
ghost use Rattle.utf8.specs.States.{Fed, after};
ghost use Rattle.utf8.specs.Unicode.{WellFormed, well_formed};

mod class;
mod state;

use class::ByteClass;
use state::State;

/// A check of bytes that come in pieces.
#[derive(Clone, Copy)]
pub struct Utf8Check {
    state: State,
}

impl Utf8Check {
    /// A check that was fed nothing.
    pub fn new() -> Utf8Check
        ensures fed_nothing { Fed result [] }
    {
        Utf8Check {
            state: State::Sequence,
        }
    }

    /// Takes the next piece.
    pub fn feed(&mut self, bytes: &[u8])
        ensures fed { (fed : List ℕ) → Fed self.old fed → Fed self.new (fed ++ bytes.now) }
        ensures becomes { self.new ≡ after self.old bytes.now }
        ensures joins { (a b : List ℕ) → bytes.now ≡ a ++ b → self.new ≡ after (after self.old a) b }
    {
        for byte in bytes {
            self.state = self.state.next(ByteClass::of(*byte));
        }
    }

    /// Whether all bytes so far, taken together, are well-formed.
    pub fn is_well_formed(&self) -> bool
        ensures as_tested { (fed : List ℕ) → Fed self.now fed → result ≡ well_formed fed }
        ensures exactly { (fed : List ℕ) → Fed self.now fed → (result ≡ true → WellFormed fed) × (WellFormed fed → result ≡ true) }
    {
        matches!(self.state, State::Sequence)
    }
}

/// Whether the bytes are well-formed.
pub fn is_utf8(bytes: &[u8]) -> bool
    ensures as_tested { result ≡ well_formed bytes.now }
    ensures exactly { (result ≡ true → WellFormed bytes.now) × (WellFormed bytes.now → result ≡ true) }
    ensures worked_examples { Answered examples bytes.now result }
{
    let mut check = Utf8Check::new();
    check.feed(bytes);
    check.is_well_formed()
}

#[cfg(test)]
mod tests {
    use super::*;

    // At each boundary of the table, on both sides.
    static CASES: [(&[u8], bool); 20] = [
        (b"", true),
        (b"\x00\x7F", true),
        (b"\x80", false),
        (b"\xC1\xBF", false),
        (b"\xC2\x80\xDF\xBF", true),
        (b"\xC2\xC0", false),
        (b"\xC2", false),
        (b"\xE0\x9F\xBF", false),
        (b"\xE0\xA0\x80\xE1\x80\x80", true),
        (b"\xE2\x82\x7F", false),
        (b"\xEC\xBF\xBF\xED\x9F\xBF", true),
        (b"\xED\xA0\x80", false),
        (b"\xEE\x80\x80\xEF\xBF\xBF", true),
        (b"\xF0\x8F\xBF\xBF", false),
        (b"\xF0\x90\x80\x80\xF1\x80\x80\x80", true),
        (b"\xF3\xBF\xBF\xBF\xF4\x8F\xBF\xBF", true),
        (b"\xF4\x90\x80\x80", false),
        (b"\xF4\x8F\xBF", false),
        (b"\xF5\x80\x80\x80", false),
        (b"\xFF", false),
    ];

    // Whole, and cut in two at every place.
    #[test]
    fn boundaries(rt: HostRuntime) {
        for (bytes, answer) in CASES {
            assert_eq!(rt; is_utf8(bytes), answer);
            // By number: a cut is a place between bytes, and no byte.
            for cut in 0..bytes.len() {
                let (front, back) = bytes.split_at(cut);
                let mut pieces = Utf8Check::new();
                pieces.feed(front);
                pieces.feed(back);
                assert_eq!(rt; pieces.is_well_formed(), answer);
            }
        }
    }
}
