//! Sources of triplets, column by column.
#![tactic(auto)]

mod asking;
mod batch;
mod entries;
mod entry;
mod fault;
mod limits;
mod shape;
mod source;
mod table;
#[cfg(test)]
mod tests;
mod values;

pub use crate::asking::{copy_bytes, is_askable};
pub use crate::batch::Batch;
pub use crate::entries::EntryList;
pub use crate::entry::Entry;
pub use crate::fault::{MISUSE, SourceFault, SourceFaultKind};
pub use crate::limits::{MAX_BATCH, MAX_COLUMNS, MAX_MEMORY, MAX_RUN};
pub use crate::shape::ColumnShape;
pub use crate::source::BatchSource;
pub use crate::table::ColumnTable;
pub use crate::values::ColumnValue;
