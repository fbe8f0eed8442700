//! Trace files: two schema images, the number of records, the batch size, and batches.
#![tactic(auto)]

mod fault;
mod head;

pub use crate::fault::{HeadError, Part};
pub use crate::head::Head;
