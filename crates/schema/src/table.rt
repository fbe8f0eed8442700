// The table that an image is read into: its nodes in preorder, and its columns.
ghost use Rattle.std.specs.Prelude.{◌≡◌, ℕ, ◌+◌, ◌-◌, ◌*◌, ◌<◌, List, [], ◌∷◌, ◌++◌};
ghost use Rattle.arrayvec.specs.ArrayVec.{array_vec_len};
ghost use Rattle.schema.specs.Reading.{node_in, fields_by, leaf_body, fields_body};
ghost use Rattle.schema.specs.Places.{headed, rest};
ghost use Rattle.schema.specs.Schemas.{leaf as leaf_node, group as group_node};
ghost use Rattle.schema.specs.Columns.{column_at, columns_all, columns_at};
ghost use Rattle.schema.specs.Tables.{Added, place, rows, rows_of, node_columns, trail, rows_held, columns_held};

use crate::column::{Column, ColumnPath};
use crate::entry::{Body, Header, Leaf, NodeEntry};
use crate::limits::{MAX_LEAVES, MAX_LEVELS, MAX_NODES};
use crate::parts::Cursor;
use crate::refusal::ImageRefusal;
use arrayvec::ArrayVec;

/// Nodes in preorder, and columns in order.
#[derive(Drop)]
pub(crate) struct Table {
    pub(crate) nodes: ArrayVec<NodeEntry, MAX_NODES>,
    pub(crate) columns: ArrayVec<Column, MAX_LEAVES>,
}

impl Table {
    /// A table with no nodes.
    pub(crate) fn empty() -> Table
        ensures { (result.nodes.items ≡ []) × (result.columns.items ≡ []) }
    {
        Table {
            nodes: ArrayVec::new(),
            columns: ArrayVec::new(),
        }
    }

    /// Reads the node at a cursor and those beneath it.
    #[cycle(fields_group_node)]
    fn node(&mut self, cursor: &mut Cursor, above: ColumnPath) -> Result<(), ImageRefusal>
        ensures { Added rows (node_columns (trail cursor.old.image.now above)) cursor.old.image.now cursor.new self.old self.new result (node_in (16 - above.len) (place cursor.old self.old)) }
    {
        if cursor.left() == 0 {
            return Err(ImageRefusal::Malformed);
        }
        if above.depth() >= MAX_LEVELS || self.nodes.is_full() {
            return Err(ImageRefusal::Limit);
        }
        let header = cursor.header()?;
        let is_group = cursor.code::<bool>()?;
        let path = above.child(header);
        if is_group {
            self.group(cursor, header, path)
        } else {
            self.leaf(cursor, header, path)
        }
    }

    /// Reads what a leaf has after its heading, and adds its node and its column.
    fn leaf(
        &mut self,
        cursor: &mut Cursor,
        header: Header,
        path: ColumnPath,
    ) -> Result<(), ImageRefusal>
        requires { array_vec_len self.old.nodes < 256 }
        ensures { Added (λ l. rows (leaf_node (headed cursor.old.image.now header) l)) (λ l. column_at (trail cursor.old.image.now path) l ∷ []) cursor.old.image.now cursor.new self.old self.new result (leaf_body (place cursor.old self.old) (rest cursor.old)) }
    {
        if self.columns.is_full() {
            return Err(ImageRefusal::Limit);
        }
        let leaf = cursor.leaf()?;
        self.nodes.push(NodeEntry {
            header,
            body: Body::Primitive(leaf),
        });
        self.columns.push(Column::new(path, leaf));
        Ok(())
    }

    /// Reads a group's number of fields and its fields, and adds its node and theirs.
    #[cycle(fields_group_node)]
    pub(crate) fn group(
        &mut self,
        cursor: &mut Cursor,
        header: Header,
        path: ColumnPath,
    ) -> Result<(), ImageRefusal>
        requires { array_vec_len self.old.nodes < 256 }
        ensures { Added (λ xs. rows (group_node (headed cursor.old.image.now header) xs)) (columns_all (trail cursor.old.image.now path)) cursor.old.image.now cursor.new self.old self.new result (fields_body (node_in (16 - path.len)) (place cursor.old self.old) (rest cursor.old)) }
    {
        let count = cursor.number()?;
        self.nodes.push(NodeEntry {
            header,
            body: Body::Group(count),
        });
        self.fields(cursor, count, path)
    }

    /// Reads `count` nodes, one after the other.
    #[cycle(fields_group_node)]
    fn fields(
        &mut self,
        cursor: &mut Cursor,
        count: u64,
        path: ColumnPath,
    ) -> Result<(), ImageRefusal>
        ensures { Added rows_of (columns_all (trail cursor.old.image.now path)) cursor.old.image.now cursor.new self.old self.new result (fields_by (node_in (16 - path.len)) count (place cursor.old self.old)) }
    {
        // So many times, with no index: the cursor holds the place.
        for _ in 0..count {
            self.node(cursor, path)?;
        }
        Ok(())
    }
}
