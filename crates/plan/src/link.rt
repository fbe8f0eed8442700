// Which file column each read leaf uses.
ghost use Rattle.std.specs.Prelude.{◌≡◌, ◌≤◌, List, [], map, length, Ok};
ghost use Rattle.schema.specs.Columns.{ColumnOf, repetition_of};
ghost use Rattle.schema.specs.Answering.{seen_columns};
ghost use Rattle.plan.specs.Links.{same_parts, same_path, same_repetition, names, highest, Highest, last_of, link_one, link_all, is_used, parts_of, headings_of, used_of, LinksLeaf, LinksNode, LinksFields, ForHeld, uses_in, Linked, DeniesFirst, DistinctIn};

use crate::kind::{FieldKind, shown_kind};
use crate::path::Path;
use crate::refusal::BuildRefusal;
use arrayvec::ArrayVec;
use basic::ConvertedType;
use schema::{Body, Header, ImageRefusal, MAX_LEAVES, MAX_LEVELS, Schema};

/// A file column that a read leaf uses, and how its values are shown.
#[derive(Clone, Copy, Default)]
pub struct UsedColumn {
    pub column: usize,
    pub kind: FieldKind,
}

/// The columns that the read leaves use, in order.
#[derive(Drop)]
pub(crate) struct Uses {
    columns: ArrayVec<UsedColumn, MAX_LEAVES>,
}

/// The schema to read by, and the file's.
#[derive(Clone, Copy)]
struct Schemas<'a> {
    read: &'a Schema<'a>,
    file: &'a Schema<'a>,
}

/// Whether the nodes of two paths have the same repetitions, one by one.
fn same_repetitions(path: &[Header], other: &[Header]) -> bool
    ensures { result ≡ same_parts same_repetition (repetition_of path.now) (repetition_of other.now) }
{
    let repetitions = other.iter().map(|header| header.repetition);
    path.iter().map(|header| header.repetition).eq(repetitions)
}

/// The annotation of a path's last node.
pub(crate) fn last_annotation(path: &[Header]) -> Option<ConvertedType>
    ensures { result ≡ last_of (map (λ h. h.annotation) path.now) }
{
    path.last().and_then(|header| header.annotation)
}

impl Schemas<'_> {
    /// Whether a path of the file's schema and one of the read schema are the same, name by name.
    fn same_path(&self, file_path: &[Header], read_path: &[Header]) -> bool
        ensures { result ≡ same_path (names (headings_of self.now.file.now file_path.now)) (names (headings_of self.now.read.now read_path.now)) }
    {
        // Before any name, so that a path of another depth costs nothing.
        if file_path.len() != read_path.len() {
            return false;
        }
        let names = read_path.iter().map(|header| self.read.text(header.name));
        file_path
            .iter()
            .map(|header| self.file.text(header.name))
            .eq(names)
    }

    /// The highest-numbered file column with a path of the read schema.
    fn find_column(&self, path: &[Header]) -> Option<usize>
        ensures value { result ≡ highest (seen_columns self.now.file.now) (names (headings_of self.now.read.now path.now)) }
        ensures highest_with_path { Highest result (seen_columns self.now.file.now) (names (headings_of self.now.read.now path.now)) }
    {
        self.file
            .columns()
            .iter()
            .rposition(|column| self.same_path(column.path.headers(), path))
    }
}

impl Uses {
    /// No columns.
    pub(crate) fn new() -> Uses
        ensures { used_of result ≡ [] }
    {
        Uses {
            columns: ArrayVec::new(),
        }
    }

    /// The columns, in the order of the read leaves.
    pub(crate) fn columns(&self) -> &[UsedColumn]
        ensures used { result.now ≡ used_of self.now }
        ensures few { length result.now ≤ 64 }
    {
        self.columns.as_slice()
    }

    /// Whether a file column is used.
    fn has(&self, column: usize) -> bool
        ensures { result ≡ is_used (used_of self.now) column }
    {
        self.columns().iter().any(|used| used.column == column)
    }

    /// The file column that the leaf at the end of a path uses.
    fn linked(&self, schemas: &Schemas<'_>, path: &[Header]) -> Result<UsedColumn, BuildRefusal>
        ensures { (earlier : List ColumnOf) (c : ColumnOf) → c.path ≡ headings_of schemas.now.read.now path.now → link_all (seen_columns schemas.now.file.now) [] earlier ≡ Ok (used_of self.now) → result ≡ link_one (seen_columns schemas.now.file.now) earlier c }
    {
        let column = schemas.find_column(path).ok_or(BuildRefusal::PathMissing)?;
        if self.has(column) {
            return Err(BuildRefusal::PathAgain);
        }
        let found = schemas.file.columns()[column];
        let headers = found.path.headers();
        if !same_repetitions(path, headers) {
            return Err(BuildRefusal::RepetitionDiffers);
        }
        let annotation = last_annotation(headers);
        let kind = shown_kind(found.leaf, annotation).ok_or(BuildRefusal::NoConversion)?;
        Ok(UsedColumn { column, kind })
    }

    /// Links the leaf at the end of a path.
    fn link_leaf(&mut self, schemas: &Schemas<'_>, path: &Path) -> Result<(), BuildRefusal>
        ensures { LinksLeaf schemas.now.file.now (headings_of schemas.now.read.now (parts_of path.now)) self.old self.new result }
    {
        let used = self.linked(schemas, path.headers())?;
        self.columns
            .try_push(used)
            .map_err(|_| BuildRefusal::Image(ImageRefusal::Limit))
    }

    /// Visits the node at a place of the read table and those beneath it, and answers the place after them.
    #[cycle(visit_visit_fields)]
    fn visit(
        &mut self,
        schemas: &Schemas<'_>,
        path: &mut Path,
        at: usize,
    ) -> Result<usize, BuildRefusal>
        ensures keeps_path { path.new ≡ path.old }
        ensures links { LinksNode schemas.now.file.now schemas.now.read.now path.old self.old self.new at result }
    {
        if path.depth() >= MAX_LEVELS {
            return Err(BuildRefusal::Image(ImageRefusal::Limit));
        }
        // As plain as `ok_or` and `?`, which would be one more step of each answer.
        let Some(&node) = schemas.read.nodes().get(at) else {
            return Err(BuildRefusal::Image(ImageRefusal::Malformed));
        };
        let entered = path.enter(node.header);
        match node.body {
            Body::Primitive(_) => {
                self.link_leaf(schemas, entered.path)?;
                Ok(at + 1)
            }
            Body::Group(fields) => self.visit_fields(schemas, entered.path, at + 1, fields),
        }
    }

    /// Visits so many nodes that stand side by side, and answers the place after them.
    #[cycle(visit_visit_fields)]
    fn visit_fields(
        &mut self,
        schemas: &Schemas<'_>,
        path: &mut Path,
        at: usize,
        fields: u64,
    ) -> Result<usize, BuildRefusal>
        ensures keeps_path { path.new ≡ path.old }
        ensures links { LinksFields schemas.now.file.now schemas.now.read.now path.old self.old self.new at fields result }
    {
        let mut next = at;
        // So many times, with no index: each node gives the place of the next.
        for _ in 0..fields {
            next = self.visit(schemas, path, next)?;
        }
        Ok(next)
    }
}

/// The file columns that the leaves of a read schema use, or the first refusal.
pub(crate) fn link(read: &Schema<'_>, file: &Schema<'_>) -> Result<Uses, BuildRefusal>
    ensures links { ForHeld read.now file.now (λ f cs. uses_in result ≡ link_all f [] cs) }
    ensures links_exactly_what_it_can { ForHeld read.now file.now (λ f cs. Linked result f cs) }
    ensures denies_first { ForHeld read.now file.now (λ f cs. DeniesFirst result f cs) }
    ensures uses_distinct_columns { ForHeld read.now file.now (λ f cs. DistinctIn result) }
{
    let Some(Body::Group(fields)) = read.nodes().first().map(|root| root.body) else {
        return Err(BuildRefusal::Image(ImageRefusal::Malformed));
    };
    let mut uses = Uses::new();
    let mut path = Path::root();
    uses.visit_fields(&Schemas { read, file }, &mut path, 1, fields)?;
    Ok(uses)
}
