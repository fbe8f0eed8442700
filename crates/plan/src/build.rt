// A plan: what reading rows needs to know, built from two schema images.
ghost use Rattle.std.specs.Prelude.{◌≡◌, ◌<◌, ◌≤◌, [], length, MatchOption, slice_index_or};
ghost use Rattle.plan.specs.Flat.{held};
ghost use Rattle.plan.specs.Links.{used_of};
ghost use Rattle.plan.specs.FileColumns.{listed};
ghost use Rattle.plan.specs.Pool.{names_held};
ghost use Rattle.plan.specs.Samples.{ShapeExamples};
ghost use Rattle.plan.specs.LinkSamples.{LinkExamples, BuildExamples};
ghost use Rattle.plan.specs.Building.{read_or, plan_of, ForBoth, PlannedAs, MeantFor, Built, Means, size_of, SaysWhy, Explains};

use crate::columns::{FileColumn, FileColumns};
use crate::link::{UsedColumn, Uses, link};
use crate::pool::NamePool;
use crate::refusal::BuildRefusal;
use crate::shape::{ShapeEntry, ShapeTable};
use schema::Schema;

/// The greatest batch size.
const MAX_BATCH: u64 = 16;

/// The batch size of a built plan, the shape of rows, the columns that they use, what is known of every file column, and the read nodes' names.
#[derive(Drop)]
pub struct Plan {
    batch_size: Option<u64>,
    shape: ShapeTable,
    uses: Uses,
    columns: FileColumns,
    names: NamePool,
}

/// The image to read by: an empty one stands for the file's.
fn read_or<'a>(file: &'a [u8], read: &'a [u8]) -> &'a [u8]
    ensures { result.now ≡ read_or file.now read.now }
{
    if read.is_empty() { file } else { read }
}

/// The plan of a file's schema and a read one, or the first refusal.
fn planned(batch_size: u64, file: &Schema<'_>, read: &Schema<'_>) -> Result<Plan, BuildRefusal>
    ensures plans { ForBoth file.now read.now (λ f t. PlannedAs result (plan_of batch_size f t)) }
    ensures means { ForBoth file.now read.now (λ f t. MeantFor result f t) }
    ensures says_why { ForBoth file.now read.now (λ f t. SaysWhy result f t) }
{
    let shape = ShapeTable::of(read)?;
    let uses = link(read, file)?;
    Ok(Plan {
        batch_size: Some(batch_size),
        shape,
        uses,
        columns: FileColumns::of(file),
        names: NamePool::of(read),
    })
}

impl Plan {
    /// A plan that was not built yet.
    pub fn new() -> Plan
        ensures unbuilt { result.batch_size ≡ None }
        ensures shape { held result.shape ≡ [] }
        ensures used { used_of result.uses ≡ [] }
        ensures columns { listed result.columns ≡ [] }
        ensures names { names_held result.names ≡ [] }
    {
        Plan {
            batch_size: None,
            shape: ShapeTable::empty(),
            uses: Uses::new(),
            columns: FileColumns::empty(),
            names: NamePool::new(),
        }
    }

    /// Builds the plan for rows of the read image from a file of the file image; where it is refused, this plan stays as it was.
    pub fn build(
        &mut self,
        batch_size: u64,
        file_image: &[u8],
        read_image: &[u8],
    ) -> Result<(), BuildRefusal>
        ensures builds { Built result batch_size file_image.now read_image.now self.old self.new }
        ensures builds_exactly_where_it_can { Means result batch_size file_image.now read_image.now self.new }
        ensures says_why { Explains result batch_size file_image.now read_image.now }
        ensures worked_examples { ShapeExamples }
        ensures worked_links { LinkExamples }
        ensures worked_builds { BuildExamples }
    {
        if batch_size == 0 || batch_size > MAX_BATCH {
            return Err(BuildRefusal::BatchSize);
        }
        let mut file = Schema::new();
        file.read(file_image)?;
        let mut read = Schema::new();
        read.read(read_or(file_image, read_image))?;
        *self = planned(batch_size, &file, &read)?;
        Ok(())
    }

    /// The batch size of a built plan.
    pub fn batch_size(&self) -> Option<u64>
        ensures { result ≡ size_of self.now }
    {
        self.batch_size
    }

    /// The shape of the rows in preorder.
    pub fn shape(&self) -> &[ShapeEntry]
        ensures { result.now ≡ held self.now.shape }
    {
        self.shape.entries()
    }

    /// The file columns that the read leaves use, in the order of the leaves.
    pub fn used(&self) -> &[UsedColumn]
        ensures { result.now ≡ used_of self.now.uses }
    {
        self.uses.columns()
    }

    /// What is known of every file column, used or not.
    pub fn columns(&self) -> &[FileColumn]
        ensures { result.now ≡ listed self.now.columns }
    {
        self.columns.columns()
    }

    /// The name of a read node, if there is such a node.
    pub fn name(&self, node: usize) -> Option<&[u8]>
        ensures { MatchOption result (length (names_held self.now.names) ≤ node) (λ p. (node < length (names_held self.now.names)) × (p.now ≡ slice_index_or (names_held self.now.names) node [])) }
    {
        self.names.name(node)
    }
}
