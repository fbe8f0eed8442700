// What a column is.
ghost use Rattle.std.specs.Prelude.{◌≡◌};
ghost use Rattle.column.specs.Columns.{shape_of};

use plan::{FileColumn, ValueKind};

/// A column's kind and both maxima.
#[derive(Clone, Copy, Default)]
pub struct ColumnShape {
    pub kind: ValueKind,
    pub max_def_level: u8,
    pub max_rep_level: u8,
}

/// The kind and maxima of a file column.
impl From<&FileColumn> for ColumnShape {
    ghost from_gives = { λ column shape. shape ≡ shape_of column.now };

    fn from(column: &FileColumn) -> ColumnShape {
        ColumnShape {
            kind: column.kind,
            max_def_level: column.max_def_level,
            max_rep_level: column.max_rep_level,
        }
    }
}
