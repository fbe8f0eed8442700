// A schema, as it is read from an image.
ghost use Rattle.std.specs.Prelude.{◌≡◌, ℕ, ◌+◌, ◌<◌, ◌≤◌, List, [], length};
ghost use Rattle.schema.specs.Places.{named};
ghost use Rattle.schema.specs.Examples.{SchemaExamples, LevelExamples};
ghost use Rattle.schema.specs.Answering.{Read, Accepted, entries_of, columns_in, seen_rows, seen_columns};

use crate::column::{Column, ColumnPath};
use crate::entry::{Header, Name, NodeEntry};
use crate::parts::Cursor;
use crate::refusal::ImageRefusal;
use crate::table::Table;
use basic::Repetition;

/// The nodes and columns of a schema, over the bytes of its image.
#[derive(Drop)]
pub struct Schema<'a> {
    image: &'a [u8],
    table: Table,
}

impl<'a> Schema<'a> {
    /// A schema that nothing was read into: it has no nodes.
    pub fn new() -> Schema<'a>
        ensures image { result.image.now ≡ [] }
        ensures nodes { seen_rows result ≡ [] }
        ensures columns { seen_columns result ≡ [] }
    {
        Schema {
            image: &[],
            table: Table::empty(),
        }
    }

    /// Reads an image; where it is refused, this schema stays as it was.
    pub fn read(&mut self, image: &'a [u8]) -> Result<(), ImageRefusal>
        ensures reads { Read result image.now self.old self.new }
        ensures accepts_exactly_images { Accepted result image.now self.new }
        ensures worked_examples { SchemaExamples }
        ensures worked_levels { LevelExamples }
    {
        let mut cursor = Cursor::new(image);
        let name = cursor.name()?;
        let root = Header {
            name,
            repetition: Repetition::Required,
            annotation: None,
        };
        let mut table = Table::empty();
        table.group(&mut cursor, root, ColumnPath::root())?;
        if cursor.left() > 0 {
            return Err(ImageRefusal::Malformed);
        }
        self.image = image;
        self.table = table;
        Ok(())
    }

    /// The nodes in preorder, the root first.
    pub fn nodes(&self) -> &[NodeEntry]
        ensures entries { result.now ≡ entries_of self.now }
        ensures few { length result.now ≤ 256 }
    {
        self.table.nodes.as_slice()
    }

    /// The columns in order.
    pub fn columns(&self) -> &[Column]
        ensures columns { result.now ≡ columns_in self.now }
        ensures few { length result.now ≤ 64 }
    {
        self.table.columns.as_slice()
    }

    /// The bytes of a name; what of its place passes the image is left out.
    pub fn text(&self, name: Name) -> &'a [u8]
        ensures { result.now ≡ named self.now.image.now name }
    {
        let start = name.start.min(self.image.len());
        let len = name.len.min(self.image.len() - start);
        &self.image[start..start + len]
    }
}
