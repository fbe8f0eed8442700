//! The numbers of schema images and traces: groups of seven bits, lowest first, the top bit set on every byte but the last,
//! in shortest form, below 2^64.
#![tactic(auto)]

ghost use Rattle.std.specs.Prelude.{drop};
ghost use Rattle.varint.specs.Number.{number_in};
ghost use Rattle.varint.specs.Reading.{Reads};
ghost use Rattle.varint.specs.Meaning.{Means, ReadsBack, Examples};

/// Why no number stands at a place.
#[derive(Clone, Copy, Debug, PartialEq, Eq)]
pub enum NumberError {
    /// The bytes end before the number does.
    Truncated,
    /// The last of several groups is a needless zero, or the tenth byte exceeds 1.
    BadForm,
}

/// The index of a tenth group.
const TENTH: usize = 9;

/// The most that a tenth group may be: one bit is left below 2^64.
const TENTH_MAX: u8 = 1;

/// The number that begins at `at`, and the place after it. At the end of the bytes or past it, there is none: `Truncated`.
pub fn number(bytes: &[u8], at: usize) -> Result<(u64, usize), NumberError>
    ensures reads { Reads result bytes.now at (number_in (drop at bytes.now)) }
    ensures means { Means result bytes.now at }
    ensures reads_back { ReadsBack result bytes.now at }
    ensures examples { Examples result bytes.now at }
{
    let rest = bytes.get(at..).unwrap_or(&[]);
    let mut value: u64 = 0;
    for (index, &byte) in rest.iter().enumerate() {
        if index == TENTH && byte > TENTH_MAX {
            return Err(NumberError::BadForm);
        }
        value += u64::from(byte & 0x7f) << (7 * index);
        if byte < 0x80 {
            if byte == 0 && index > 0 {
                return Err(NumberError::BadForm);
            }
            return Ok((value, at + index + 1));
        }
    }
    Err(NumberError::Truncated)
}

#[cfg(test)]
mod tests {
    use super::*;

    #[test]
    fn reads_numbers(rt: HostRuntime) {
        assert_eq!(rt; number(&[0xac, 0x02], 0), Ok((300, 2)));
        assert_eq!(rt; number(&[7, 0x80, 0x00], 1), Err(NumberError::BadForm));
        assert_eq!(rt; number(&[0x80], 0), Err(NumberError::Truncated));
    }
}
