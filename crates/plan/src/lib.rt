//! Plans: the shape of rows and the columns that they use.
#![tactic(auto)]

mod build;
mod columns;
mod form;
mod kind;
mod link;
mod path;
mod pool;
mod refusal;
mod shape;

pub use crate::build::Plan;
pub use crate::columns::FileColumn;
pub use crate::kind::{FieldKind, ValueKind};
pub use crate::link::UsedColumn;
pub use crate::refusal::BuildRefusal;
pub use crate::shape::{Form, ShapeEntry};
