//! Schema images, read into a fixed table of nodes and columns.
#![tactic(auto)]

mod column;
mod entry;
mod limits;
mod parts;
mod refusal;
mod table;
mod tree;

pub use crate::column::{Column, ColumnPath};
pub use crate::entry::{Body, Header, Leaf, Name, NodeEntry};
pub use crate::limits::{MAX_LEAVES, MAX_LEVELS, MAX_NAME, MAX_NODES, NUMBER_LIMIT};
pub use crate::refusal::ImageRefusal;
pub use crate::tree::Schema;

#[cfg(test)]
mod tests {
    use super::Schema;
    use std::test::Fail;

    // An OPTIONAL LIST `s` of a REPEATED group `l` of an OPTIONAL INT32 `e`.
    static LIST: [u8; 25] = [
        1, 116, 1, 1, 115, 1, 4, 1, 1, 1, 108, 2, 0, 1, 1, 1, 101, 1, 0, 0, 1, 0, 0, 0, 0,
    ];

    #[test]
    fn reads_a_list(rt: HostRuntime) -> Result<(), Fail> {
        let mut schema = Schema::new();
        assert!(rt; schema.read(&LIST).is_ok());
        assert_eq!(rt; schema.nodes().len(), 4);
        let [column] = schema.columns() else {
            return Err(Fail::new("one column"));
        };
        assert_eq!(rt; column.max_def_level, 3);
        assert_eq!(rt; column.max_rep_level, 1);
        assert_eq!(rt; column.path.headers().len(), 3);
        Ok(())
    }

    #[test]
    fn refusal_leaves_what_was_read(rt: HostRuntime) -> Result<(), Fail> {
        let mut schema = Schema::new();
        assert!(rt; schema.read(&LIST).is_ok());
        let Err(refusal) = schema.read(&LIST[0..24]) else {
            return Err(Fail::new("cut short"));
        };
        assert_eq!(rt; refusal.number(), 2);
        assert_eq!(rt; schema.nodes().len(), 4);
        Ok(())
    }
}
