//! Rows laid out in cells and bytes.
#![tactic(auto)]

mod cell;
mod make;

pub use crate::cell::{Cell, CellKind};

#[cfg(test)]
mod tests {
    use super::*;
    use plan::FieldKind;
    use value::Int96;

    #[test]
    fn numbers(rt: HostRuntime) {
        assert_eq!(rt; CellKind::Shown(FieldKind::Null).number(), 0);
        assert_eq!(rt; CellKind::Shown(FieldKind::MapInternal).number(), 23);
        assert_eq!(rt; CellKind::StoredWord.number(), 24);
        assert_eq!(rt; CellKind::StoredRun.number(), 26);
    }

    #[test]
    fn three_numbers_in_a_cell(rt: HostRuntime) {
        let cell = Cell::stored_int96(
            5,
            Int96 {
                low: 3,
                middle: 2,
                high: 1,
            },
        );
        assert_eq!(rt; cell.kind.number(), 25);
        assert_eq!(rt; (cell.node, cell.count, cell.word), (5, 1, 0x2_0000_0003));
        assert_eq!(rt; (cell.start, cell.length), (0, 0));
    }

    #[test]
    fn parts_of_the_bytes(rt: HostRuntime) {
        let str = CellKind::Shown(FieldKind::Str);
        assert_eq!(rt;
            Cell::bytes(1, str, 1, 2).part(b"abc"),
            Some(b"bc".as_slice())
        );
        assert_eq!(rt;
            Cell::bytes(1, str, 3, 0).part(b"abc"),
            Some(b"".as_slice())
        );
        assert_eq!(rt; Cell::bytes(1, str, 2, 2).part(b"abc"), None);
        assert_eq!(rt; Cell::bytes(1, str, u64::MAX, 1).part(b"abc"), None);
    }
}
