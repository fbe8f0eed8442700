// The rules that a read node keeps or breaks.
ghost use Rattle.std.specs.Prelude.{◌≡◌, ◌<◌};
ghost use Rattle.plan.specs.Forms.{collection};

use crate::refusal::BuildRefusal;
use basic::{ConvertedType, Repetition};
use schema::{Body, NodeEntry, Schema};

/// What a group's annotation makes of it.
#[derive(Clone, Copy, PartialEq, Eq)]
pub(crate) enum Collection {
    ListOf,
    MapOf,
    Plain,
}

/// What an annotation makes of a group.
impl From<Option<ConvertedType>> for Collection {
    ghost from_gives = { λ annotation made. made ≡ collection annotation };

    fn from(annotation: Option<ConvertedType>) -> Collection {
        match annotation {
            Some(ConvertedType::List) => Collection::ListOf,
            Some(ConvertedType::Map | ConvertedType::MapKeyValue) => Collection::MapOf,
            _ => Collection::Plain,
        }
    }
}

/// A node of a read schema: where it stands, and what stands there.
#[derive(Clone, Copy)]
pub(crate) struct ReadNode<'a> {
    pub(crate) read: &'a Schema<'a>,
    pub(crate) at: usize,
    pub(crate) shown: NodeEntry,
    ghost few: { at < 256 },
}

impl<'a> ReadNode<'a> {
    ghost use Rattle.std.specs.Prelude.{◌+◌, None, not, ◌&&◌, ◌||◌};
    ghost use Rattle.std.specs.Result.{result_err};
    ghost use Rattle.schema.specs.Columns.{heading};
    ghost use Rattle.schema.specs.Schemas.{Node, Nodes, more as more_nodes, count as fields_of};
    ghost use Rattle.plan.specs.Forms.{is_repeated, collects, named_as_element, is_empty, is_key, middle_is_element, repeats_only, is_middle_of_map, list_rule, map_rule, rule_broken};
    ghost use Rattle.plan.specs.Standing.{StandAll, IsNode, FoundAt, heading_at, two_fields};

    /// The node at a place of a read schema.
    pub(crate) fn find(read: &'a Schema<'a>, at: usize) -> Option<ReadNode<'a>>
        ensures { FoundAt read.now at result }
    {
        let shown = read.nodes().get(at).copied()?;
        Some(ReadNode { read, at, shown })
    }

    /// The node at the place after it.
    pub(crate) fn next(self) -> Option<ReadNode<'a>>
        ensures { FoundAt self.entry.read.now (self.entry.at + 1) result }
    {
        ReadNode::find(self.read, self.at + 1)
    }

    /// Whether it is REPEATED.
    fn is_repeated(self) -> bool
        ensures { (x : Node) → IsNode self.entry x → result ≡ is_repeated (heading x).repetition }
    {
        self.shown.header.repetition == Repetition::Repeated
    }

    /// Whether it is a group annotated LIST, MAP or MAP_KEY_VALUE.
    fn is_collection(self) -> bool
        ensures { (x : Node) → IsNode self.entry x → result ≡ collects x }
    {
        matches!(self.shown.body, Body::Group(_))
            && Collection::from(self.shown.header.annotation) != Collection::Plain
    }

    /// Whether it is a group without fields.
    fn is_empty(self) -> bool
        ensures { (x : Node) → IsNode self.entry x → result ≡ is_empty x }
    {
        matches!(self.shown.body, Body::Group(0))
    }

    /// Whether it is a group of two fields.
    pub(crate) fn has_two_fields(self) -> bool
        ensures { result ≡ two_fields self.entry.shown.body }
    {
        matches!(self.shown.body, Body::Group(2))
    }

    /// Whether it is a leaf that is not REPEATED.
    fn is_key(self) -> bool
        ensures { (x : Node) → IsNode self.entry x → result ≡ is_key x }
    {
        matches!(self.shown.body, Body::Primitive(_)) && !self.is_repeated()
    }

    /// Whether it is named `array`, or as the list with `_tuple`.
    fn is_named_as_element(self, list: ReadNode<'_>) -> bool
        ensures { result ≡ named_as_element (heading_at list.entry) (heading_at self.entry) }
    {
        let name = self.read.text(self.shown.header.name);
        name == b"array".as_slice()
            || name.strip_suffix(b"_tuple") == Some(list.read.text(list.shown.header.name))
    }

    /// Whether a list's element is this middle itself, and not the middle's one field.
    pub(crate) fn is_element(self, list: ReadNode<'_>) -> bool
        ensures { (m : Node) → IsNode self.entry m → result ≡ middle_is_element (heading_at list.entry) m }
    {
        match self.shown.body {
            Body::Primitive(_) => true,
            Body::Group(count) => count >= 2 || self.is_named_as_element(list),
        }
    }

    /// Whether a list's element would be a field that this middle has not.
    fn lacks_element(self, list: ReadNode<'_>) -> bool
        ensures { (m : Node) → IsNode self.entry m → result ≡ (is_empty m && not (middle_is_element (heading_at list.entry) m)) }
    {
        self.is_empty() && !self.is_element(list)
    }

    /// Whether it is a group of one field only, and that REPEATED.
    fn repeats_only(self) -> bool
        ensures { (m : Node) → IsNode self.entry m → result ≡ repeats_only m }
    {
        match self.shown.body {
            Body::Group(1) => self.next().is_some_and(ReadNode::is_repeated),
            _ => false,
        }
    }

    /// Whether it is a collection, or has one field only and that REPEATED.
    fn collects_or_repeats(self) -> bool
        ensures { (m : Node) → IsNode self.entry m → result ≡ (collects m || repeats_only m) }
    {
        self.is_collection() || self.repeats_only()
    }

    /// Whether it is a REPEATED group of a key, or of a key and a value.
    fn is_middle_of_map(self) -> bool
        ensures { (m : Node) → IsNode self.entry m → result ≡ is_middle_of_map m }
    {
        let Body::Group(count) = self.shown.body else {
            return false;
        };
        if count == 0 || count > 2 || !self.is_repeated() {
            return false;
        }
        self.next().is_some_and(ReadNode::is_key)
    }

    /// The first rule of a LIST group that it breaks, if its `count` fields are some.
    fn check_list(self, count: u64) -> Result<(), BuildRefusal>
        ensures { (x : Node) (xs : Nodes) → count ≡ 1 + fields_of xs → StandAll self.entry.read.now (self.entry.at + 1) (more_nodes x xs) → result_err result ≡ list_rule (heading_at self.entry) (more_nodes x xs) None }
    {
        if count != 1 {
            return Err(BuildRefusal::BadList);
        }
        // As plain as `ok_or` and `?`, which would leave a goal to answer.
        let Some(middle) = self.next() else {
            return Err(BuildRefusal::BadList);
        };
        if !middle.is_repeated() {
            return Err(BuildRefusal::BadList);
        }
        if middle.lacks_element(self) {
            return Err(BuildRefusal::EmptyGroup);
        }
        if middle.collects_or_repeats() {
            return Err(BuildRefusal::BadList);
        }
        Ok(())
    }

    /// The rule of a MAP or MAP_KEY_VALUE group that it breaks, if its `count` fields are some.
    fn check_map(self, count: u64) -> Result<(), BuildRefusal>
        ensures { (x : Node) (xs : Nodes) → count ≡ 1 + fields_of xs → StandAll self.entry.read.now (self.entry.at + 1) (more_nodes x xs) → result_err result ≡ map_rule (more_nodes x xs) None }
    {
        if count == 1 && self.next().is_some_and(ReadNode::is_middle_of_map) {
            Ok(())
        } else {
            Err(BuildRefusal::BadMap)
        }
    }

    /// The first rule that it breaks by itself.
    pub(crate) fn check(self) -> Result<(), BuildRefusal>
        ensures { (x : Node) → IsNode self.entry x → result_err result ≡ rule_broken x }
    {
        let Body::Group(count) = self.shown.body else {
            return Ok(());
        };
        if count == 0 {
            return Err(BuildRefusal::EmptyGroup);
        }
        match Collection::from(self.shown.header.annotation) {
            Collection::ListOf => self.check_list(count)?,
            Collection::MapOf => self.check_map(count)?,
            Collection::Plain => return Ok(()),
        }
        if self.is_repeated() {
            Err(BuildRefusal::RepeatedCollection)
        } else {
            Ok(())
        }
    }
}
