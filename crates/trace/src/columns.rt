// `columns`: the columns of a trace file, as text.
ghost use Rattle.std.specs.Prelude.{◌≡◌, IfOk, string_bytes};
ghost use Rattle.trace.specs.Texts.{count_text, float16_text, type_text};

use crate::escape::push_name;
use crate::table::Table;
use basic::{ConvertedType, PhysicalType};
use schema::{Column, ColumnPath, Leaf, Schema};
use std::alloc::{AllocError, Global};
use std::fmt::Write;
use trace_file::Head;

/// The table's first line.
const TITLES: [&str; 6] = [
    "column",
    "path",
    "type",
    "annotation",
    "max definition",
    "max repetition",
];

/// The table of the columns, and a line that says what was read.
pub(crate) fn listing(
    heap: Global,
    head: &Head<'_>,
    schema: &Schema<'_>,
) -> Result<String, AllocError> {
    let mut table = Table::new(heap);
    table.push(titles(heap)?)?;
    for (number, column) in schema.columns().iter().enumerate() {
        table.push(cells(heap, schema, number, column)?)?;
    }
    let mut text = String::new(heap);
    table.write(heap, &mut text)?;
    push_closing(heap, &mut text, head, schema)?;
    Ok(text)
}

fn titles(heap: Global) -> Result<Vec<String>, AllocError> {
    TITLES
        .iter()
        .map(|title| String::from_str(heap, title))
        .try_collect(heap)
}

/// The cells of a column.
fn cells(
    heap: Global,
    schema: &Schema<'_>,
    number: usize,
    column: &Column,
) -> Result<Vec<String>, AllocError> {
    let mut cells = Vec::new(heap);
    cells.push(format!(in heap; "{number}")?)?;
    cells.push(path_text(heap, schema, &column.path)?)?;
    cells.push(type_text(heap, &column.leaf)?)?;
    cells.push(annotation_text(heap, column)?)?;
    let definition = column.max_def_level;
    cells.push(format!(in heap; "{definition}")?)?;
    let repetition = column.max_rep_level;
    cells.push(format!(in heap; "{repetition}")?)?;
    Ok(cells)
}

/// The names of a path, with dots between them.
fn path_text(heap: Global, schema: &Schema<'_>, path: &ColumnPath) -> Result<String, AllocError> {
    let mut text = String::new(heap);
    for (index, header) in path.headers().iter().enumerate() {
        if index > 0 {
            text.push('.')?;
        }
        push_name(heap, &mut text, schema.text(header.name))?;
    }
    Ok(text)
}

/// What follows a type that is Float16.
fn float16_text(is_float16: bool) -> &'static str
    ensures { result.now ≡ float16_text is_float16 }
{
    if is_float16 { " Float16" } else { "" }
}

/// How a leaf's values are stored.
fn type_text(heap: Global, leaf: &Leaf) -> Result<String, AllocError>
    ensures { IfOk result (λ s. string_bytes s ≡ type_text leaf.now) }
{
    let physical = leaf.physical;
    let length = leaf.length;
    let float16 = float16_text(leaf.float16);
    match physical {
        PhysicalType::FixedLenByteArray => format!(in heap; "{physical}({length}){float16}"),
        _ => format!(in heap; "{physical}{float16}"),
    }
}

/// What a leaf's values stand for; of a decimal also its precision and scale.
fn converted_text(
    heap: Global,
    converted: ConvertedType,
    leaf: &Leaf,
) -> Result<String, AllocError> {
    let precision = leaf.precision;
    let scale = leaf.scale;
    match converted {
        ConvertedType::Decimal => format!(in heap; "{converted}({precision}, {scale})"),
        _ => format!(in heap; "{converted}"),
    }
}

/// What a column's values stand for.
fn annotation_text(heap: Global, column: &Column) -> Result<String, AllocError> {
    match column
        .path
        .headers()
        .last()
        .and_then(|header| header.annotation)
    {
        Some(converted) => converted_text(heap, converted, &column.leaf),
        None => String::from_str(heap, "-"),
    }
}

/// How many of a thing there are.
// A text of its own, of which its clause says the bytes.
pub(crate) fn counted(heap: Global, count: usize, thing: &str) -> Result<String, AllocError>
    ensures { IfOk result (λ s. string_bytes s ≡ count_text count thing.now) }
{
    let ending = if count == 1 { "" } else { "s" };
    format!(in heap; "{count} {thing}{ending}")
}

/// Adds the line that says what was read.
fn push_closing(
    heap: Global,
    text: &mut String,
    head: &Head<'_>,
    schema: &Schema<'_>,
) -> Result<(), AllocError> {
    let columns = counted(heap, schema.columns().len(), "column")?;
    let nodes = counted(heap, schema.nodes().len(), "node")?;
    let image = counted(heap, head.file_image.len(), "byte")?;
    let records = counted(heap, head.records as usize, "record")?;
    let size = head.batch_size;
    let batches = counted(heap, head.batches.len(), "byte")?;
    write!(
        text,
        "{columns} of {nodes}, read from a schema image of {image}; {records} announced, batch size {size}, {batches} of batches\n"
    )
}
