// The shape of rows, formed from a read schema.
ghost use Rattle.std.specs.Prelude.{◌≡◌, ℕ, ◌+◌, ◌*◌, ◌<◌, ◌≤◌, List, [], length, None, Option};
ghost use Rattle.schema.specs.Answering.{Holds};
ghost use Rattle.schema.specs.Schemas.{Tree, Node, Nodes, more as more_nodes, count as fields_of};
ghost use Rattle.schema.specs.Image.{size, sizes, leaves as leaves_in, leaves_of};
ghost use Rattle.plan.specs.Forms.{shape_in, form_in, body_by, group_by, fields_by, list_by, element_by, map_by, rule_broken, list_rule, map_rule};
ghost use Rattle.plan.specs.Standing.{Stands, StandAll, IsNode, heading_at};
ghost use Rattle.plan.specs.Flat.{held, ShapeHeld, pushed, wrapped_table, leaf_table, Appended, Begun, Roomy, RoomyAfter};

use crate::form::{Collection, ReadNode};
use crate::refusal::BuildRefusal;
use arrayvec::ArrayVec;
use basic::Repetition;
use schema::{Body, Schema};

/// What stands at a place of a row.
#[derive(Clone, Copy, Default)]
pub enum Form {
    /// A value.
    #[default]
    Leaf,
    /// Null, or what follows.
    Optional,
    /// So many fields.
    Group(u64),
    /// Elements, each as what follows.
    List,
    /// Pairs, each a key and a value as what follows.
    Map,
}

/// A place of the shape, before those beneath it.
#[derive(Clone, Copy, Default)]
pub struct ShapeEntry {
    pub form: Form,
    /// The read node that is shown here.
    pub node: u32,
    /// The first leaf at or beneath this place, counted over the read leaves.
    pub leaf: u32,
}

/// A shape in preorder.
#[derive(Drop)]
pub(crate) struct ShapeTable {
    entries: ArrayVec<ShapeEntry, MAX_ENTRIES>,
    leaves: u32,
}

/// A node has at most two entries.
const MAX_ENTRIES: usize = 512;

/// The levels of a schema, the root's own included.
const LEVELS: usize = 17;

impl ShapeTable {
    /// A table with no entries.
    pub(crate) fn empty() -> ShapeTable
        ensures entries { held result ≡ [] }
        ensures leaves { result.leaves ≡ 0 }
    {
        ShapeTable {
            entries: ArrayVec::new(),
            leaves: 0,
        }
    }

    /// The shape of a read schema's rows, or the first rule that it breaks.
    pub(crate) fn of(read: &Schema) -> Result<ShapeTable, BuildRefusal>
        ensures { (t : Tree) → Holds read.now t → ShapeHeld result (shape_in t) }
    {
        let mut table = ShapeTable::empty();
        table.node(read, 0, LEVELS)?;
        Ok(table)
    }

    /// The entries, each before those beneath it.
    pub(crate) fn entries(&self) -> &[ShapeEntry]
        ensures { result.now ≡ held self.now }
    {
        self.entries.as_slice()
    }

    /// Adds an entry for a read node, whose first leaf is the next one.
    fn push(&mut self, form: Form, node: ReadNode)
        requires { Begun self.old node.at }
        ensures { self.new ≡ pushed self.old form node.entry.at }
    {
        self.entries.push(ShapeEntry {
            form,
            node: node.at as u32,
            leaf: self.leaves,
        });
    }

    /// Adds what a node's repetition puts before it.
    fn wrap(&mut self, node: ReadNode)
        requires { Roomy self.old node.at }
        ensures { self.new ≡ wrapped_table node.entry.shown.header.repetition self.old node.entry.at }
    {
        match node.shown.header.repetition {
            Repetition::Required => {}
            Repetition::Optional => self.push(Form::Optional, node),
            Repetition::Repeated => self.push(Form::List, node),
        }
    }

    /// Adds a leaf, and answers the place after it.
    fn leaf(&mut self, node: ReadNode) -> usize
        requires { Begun self.old node.at }
        ensures after { self.new ≡ leaf_table self.old node.entry.at }
        ensures next { result ≡ node.entry.at + 1 }
    {
        self.push(Form::Leaf, node);
        self.leaves += 1;
        node.at + 1
    }

    /// Forms the read node at a place and adds its entries; answers the place after it.
    #[cycle(body_element_fields_group_list_map_node)]
    fn node<'a>(
        &mut self,
        read: &'a Schema<'a>,
        at: usize,
        levels: usize,
    ) -> Result<usize, BuildRefusal>
        requires { Roomy self.old at }
        ensures formed { (x : Node) → Stands read.now at x → Appended self.old self.new at (size x) (leaves_in x) result (form_in levels at self.old.leaves x) }
        ensures roomy { RoomyAfter self.new at result }
    {
        if levels == 0 {
            return Err(BuildRefusal::EmptyGroup);
        }
        // As plain as `ok_or` and `?`, which would leave a goal to answer.
        let Some(node) = ReadNode::find(read, at) else {
            return Err(BuildRefusal::EmptyGroup);
        };
        node.check()?;
        self.wrap(node);
        self.body(node, levels - 1)
    }

    /// Forms a read node as if it were REQUIRED; it breaks no rule by itself.
    // The levels left go beside the node here and below: they bound the calls, and no node tells how many they are.
    // That the table has begun a node, and is roomy after it, is said at each call: it ties the table to a place, and is no
    // fact of one value.
    #[cycle(body_element_fields_group_list_map_node)]
    fn body(&mut self, node: ReadNode, levels: usize) -> Result<usize, BuildRefusal>
        requires { Begun self.old node.at }
        ensures formed { (x : Node) → IsNode node.entry x → rule_broken x ≡ None → Appended self.old self.new node.entry.at (size x) (leaves_in x) result (body_by (form_in levels) node.entry.at self.old.leaves x) }
        ensures roomy { RoomyAfter self.new node.entry.at result }
    {
        let Body::Group(count) = node.shown.body else {
            return Ok(self.leaf(node));
        };
        match Collection::from(node.shown.header.annotation) {
            Collection::ListOf => self.list(node, levels),
            Collection::MapOf => self.map(node, levels),
            Collection::Plain => self.group(node, count, levels),
        }
    }

    /// Forms a group over its fields.
    #[cycle(body_element_fields_group_list_map_node)]
    fn group(&mut self, node: ReadNode, count: u64, levels: usize) -> Result<usize, BuildRefusal>
        requires { Begun self.old node.at }
        ensures formed { (xs : Nodes) → count ≡ fields_of xs → StandAll node.entry.read.now (node.entry.at + 1) xs → Appended self.old self.new node.entry.at (1 + sizes xs) (leaves_of xs) result (group_by (form_in levels) node.entry.at self.old.leaves xs) }
        ensures roomy { RoomyAfter self.new node.entry.at result }
    {
        if count == 0 {
            return Err(BuildRefusal::EmptyGroup);
        }
        self.push(Form::Group(count), node);
        self.fields(node.read, node.at + 1, count, levels)
    }

    /// Forms `count` nodes, one after the other.
    #[cycle(body_element_fields_group_list_map_node)]
    fn fields<'a>(
        &mut self,
        read: &'a Schema<'a>,
        at: usize,
        count: u64,
        levels: usize,
    ) -> Result<usize, BuildRefusal>
        requires { Roomy self.old at }
        ensures formed { (x : Node) (xs : Nodes) → count ≡ 1 + fields_of xs → StandAll read.now at (more_nodes x xs) → Appended self.old self.new at (size x + sizes xs) (leaves_in x + leaves_of xs) result (fields_by (form_in levels) at self.old.leaves x xs) }
        ensures roomy { RoomyAfter self.new at result }
    {
        let next = self.node(read, at, levels)?;
        if count <= 1 {
            return Ok(next);
        }
        self.fields(read, next, count - 1, levels)
    }

    /// Forms a list over its element, which is the middle or the middle's one field.
    #[cycle(body_element_fields_group_list_map_node)]
    fn list(&mut self, node: ReadNode, levels: usize) -> Result<usize, BuildRefusal>
        requires { Begun self.old node.at }
        ensures formed { (xs : Nodes) (others : Option BuildRefusal) → StandAll node.entry.read.now (node.entry.at + 1) xs → list_rule (heading_at node.entry) xs others ≡ None → Appended self.old self.new node.entry.at (1 + sizes xs) (leaves_of xs) result (list_by (form_in levels) node.entry.at self.old.leaves (heading_at node.entry) xs) }
        ensures roomy { RoomyAfter self.new node.entry.at result }
    {
        // As plain as `ok_or` and `?`, which would leave a goal to answer.
        let Some(middle) = node.next() else {
            return Err(BuildRefusal::BadList);
        };
        self.push(Form::List, node);
        if middle.is_element(node) {
            self.element(middle, levels)
        } else {
            self.node(node.read, node.at + 2, levels)
        }
    }

    /// Forms a list's middle that is the element, as if it were REQUIRED and had no annotation.
    #[cycle(body_element_fields_group_list_map_node)]
    fn element(&mut self, node: ReadNode, levels: usize) -> Result<usize, BuildRefusal>
        requires { Begun self.old node.at }
        ensures formed { (m : Node) → IsNode node.entry m → Appended self.old self.new node.entry.at (size m) (leaves_in m) result (element_by (form_in levels) node.entry.at self.old.leaves m) }
        ensures roomy { RoomyAfter self.new node.entry.at result }
    {
        match node.shown.body {
            Body::Primitive(_) => Ok(self.leaf(node)),
            Body::Group(count) => self.group(node, count, levels),
        }
    }

    /// Forms a map over key and value, or a list of keys.
    #[cycle(body_element_fields_group_list_map_node)]
    fn map(&mut self, node: ReadNode, levels: usize) -> Result<usize, BuildRefusal>
        requires { Begun self.old node.at }
        ensures formed { (xs : Nodes) (others : Option BuildRefusal) → StandAll node.entry.read.now (node.entry.at + 1) xs → map_rule xs others ≡ None → Appended self.old self.new node.entry.at (1 + sizes xs) (leaves_of xs) result (map_by (form_in levels) node.entry.at self.old.leaves xs) }
        ensures roomy { RoomyAfter self.new node.entry.at result }
    {
        // As plain as `ok_or` and `?`, which would leave a goal to answer.
        let Some(middle) = node.next() else {
            return Err(BuildRefusal::BadMap);
        };
        if !middle.has_two_fields() {
            self.push(Form::List, node);
            return self.node(node.read, node.at + 2, levels);
        }
        self.push(Form::Map, node);
        let value = self.node(node.read, node.at + 2, levels)?;
        self.node(node.read, value, levels)
    }
}
