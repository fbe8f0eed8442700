// What is known of every column of a file.
ghost use Rattle.std.specs.Prelude.{◌≡◌, ◌≤◌, [], map, length};
ghost use Rattle.schema.specs.Answering.{columns_in};
ghost use Rattle.plan.specs.FileColumns.{file_column, listed};

use crate::kind::ValueKind;
use crate::link::last_annotation;
use arrayvec::ArrayVec;
use basic::{ConvertedType, PhysicalType};
use schema::{Column, MAX_LEAVES, Schema};

/// A column of a file, whether rows use it or not.
#[derive(Clone, Copy, Default)]
pub struct FileColumn {
    /// How its values are delivered.
    pub kind: ValueKind,
    pub max_def_level: u8,
    pub max_rep_level: u8,
    pub physical: PhysicalType,
    pub annotation: Option<ConvertedType>,
}

/// The columns of a file, in order.
#[derive(Drop)]
pub(crate) struct FileColumns {
    columns: ArrayVec<FileColumn, MAX_LEAVES>,
}

/// What is known of a column of a schema.
impl From<&Column> for FileColumn {
    ghost from_gives = { λ column known. known ≡ file_column column.now };

    fn from(column: &Column) -> FileColumn {
        FileColumn {
            kind: ValueKind::from(column.leaf.physical),
            max_def_level: column.max_def_level,
            max_rep_level: column.max_rep_level,
            physical: column.leaf.physical,
            annotation: last_annotation(column.path.headers()),
        }
    }
}

impl FileColumns {
    /// No columns.
    pub(crate) fn empty() -> FileColumns
        ensures { listed result ≡ [] }
    {
        FileColumns {
            columns: ArrayVec::new(),
        }
    }

    /// The columns of a file's schema.
    pub(crate) fn of(file: &Schema) -> FileColumns
        ensures columns { listed result ≡ map file_column (columns_in file.now) }
    {
        let mut columns = ArrayVec::new();
        for column in file.columns() {
            columns.push(FileColumn::from(column));
        }
        FileColumns { columns }
    }

    /// The columns in order.
    pub(crate) fn columns(&self) -> &[FileColumn]
        ensures columns { result.now ≡ listed self.now }
        ensures few { length result.now ≤ 64 }
    {
        self.columns.as_slice()
    }
}
