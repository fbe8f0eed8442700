//! The values of columns: which of them a leaf takes, and what they are shown as.
#![tactic(auto)]

mod leaf;
mod shown;
mod types;

pub use crate::leaf::LeafType;
pub use crate::shown::{Decimal, float16, shown_word, word_fits};
pub use crate::types::{Int96, Run, Value};

#[cfg(test)]
mod tests {
    use super::*;
    use basic::PhysicalType;
    use plan::FieldKind;

    #[test]
    fn words_are_narrowed_and_extended(rt: HostRuntime) {
        assert_eq!(rt; shown_word(FieldKind::Byte, 300), 44);
        assert_eq!(rt; shown_word(FieldKind::Byte, 0x80), 0xffff_ffff_ffff_ff80);
        assert_eq!(rt;
            shown_word(FieldKind::Short, 0x1_8000),
            0xffff_ffff_ffff_8000
        );
        assert_eq!(rt;
            shown_word(FieldKind::Date, 0xffff_ffff),
            0xffff_ffff_ffff_ffff
        );
        assert_eq!(rt; shown_word(FieldKind::UShort, 0x1_8000), 0x8000);
        assert_eq!(rt;
            shown_word(FieldKind::Long, 0x8000_0000_0000_0000),
            0x8000_0000_0000_0000
        );
    }

    #[test]
    fn words_that_fit(rt: HostRuntime) {
        assert!(rt; word_fits(PhysicalType::Boolean, 1) && !word_fits(PhysicalType::Boolean, 2));
        assert!(rt;
            word_fits(PhysicalType::Float, 0xffff_ffff)
                && !word_fits(PhysicalType::Int32, 0x1_0000_0000)
        );
        assert!(rt;
            word_fits(PhysicalType::Double, 0xffff_ffff_ffff_ffff)
                && !word_fits(PhysicalType::Int96, 0)
        );
    }

    fn millis(low: u32, middle: u32, high: u32) -> i64 {
        Int96 { low, middle, high }.to_millis()
    }

    #[test]
    fn legacy_timestamps(rt: HostRuntime) {
        assert_eq!(rt; millis(3_000_000, 0, 2_440_589), 86_400_003);
        assert_eq!(rt; millis(0xffff_ffff, 0xffff_ffff, 2_440_588), 0);
        assert_eq!(rt; millis(4_293_467_296, 0xffff_ffff, 2_440_588), -1);
        assert_eq!(rt; millis(0, 0, 0x7fff_ffff), 185_331_720_297_600_000);
        assert_eq!(rt;
            millis(0, 0x8000_0000, 0x8000_0000),
            -185_762_677_362_436_854
        );
    }

    #[test]
    fn bytes_of_floats_and_decimals(rt: HostRuntime) {
        assert_eq!(rt; float16(&[0x00, 0x3c]), Some(15360));
        assert_eq!(rt; float16(&[0x3c]), None);
        assert_eq!(rt; float16(&[0, 0x3c, 0]), None);
        assert_eq!(rt; 0xffff_fe0c_u32.decimal(), [0xff, 0xff, 0xfe, 0x0c]);
        assert_eq!(rt; 258_u64.decimal(), [0, 0, 0, 0, 0, 0, 1, 2]);
    }
}
