// What the libraries answer, as text.
use crate::case::Group;
use basic::Code;
use plan::{Form, Plan, ShapeEntry};
use schema::{Body, Column, Header, ImageRefusal, NodeEntry, Schema};
use std::alloc::{AllocError, Global};
use std::fmt::Write;
use trace_file::{Head, HeadError};
use utf8::{Utf8Check, is_utf8};
use varint::{NumberError, number};

/// The answer to the bytes of a case.
pub(crate) fn answer(heap: Global, group: Group, bytes: &[u8]) -> Result<String, AllocError> {
    // A match on the closed list of groups: a table of functions would hold the same list, and a pointer for each.
    match group {
        Group::Utf8 => String::from_str(heap, utf8_text(bytes)),
        Group::Number => number_text(heap, bytes),
        Group::Image => image_text(heap, bytes),
        Group::Nodes => nodes_text(heap, bytes),
        Group::Head => head_text(heap, bytes),
        Group::Plan => plan_text(heap, bytes),
    }
}

/// `yes` or `no`; `mixed` where bytes fed in pieces are told otherwise than whole.
fn utf8_text(bytes: &[u8]) -> &'static str {
    let whole = is_utf8(bytes);
    let alike = (0..bytes.len()).all(|cut| in_two(bytes.split_at(cut)) == whole);
    if !alike || byte_by_byte(bytes) != whole {
        return "mixed";
    }
    if whole { "yes" } else { "no" }
}

fn in_two((front, back): (&[u8], &[u8])) -> bool {
    let mut check = Utf8Check::new();
    check.feed(front);
    check.feed(back);
    check.is_well_formed()
}

fn byte_by_byte(bytes: &[u8]) -> bool {
    let mut check = Utf8Check::new();
    for byte in bytes {
        check.feed(&[*byte]);
    }
    check.is_well_formed()
}

/// The value and the place after it, or why there is none.
fn number_text(heap: Global, bytes: &[u8]) -> Result<String, AllocError> {
    match number(bytes, 0) {
        Ok((value, next)) => format!(in heap; "{value} {next}"),
        Err(NumberError::Truncated) => String::from_str(heap, "truncated"),
        Err(NumberError::BadForm) => String::from_str(heap, "badform"),
    }
}

fn refusal_text(heap: Global, refusal: ImageRefusal) -> Result<String, AllocError> {
    let number = refusal.number();
    format!(in heap; "refused {number}")
}

/// How many nodes there are, and each column.
fn image_text(heap: Global, bytes: &[u8]) -> Result<String, AllocError> {
    let mut schema = Schema::new();
    // No `?`: a refusal is an answer here.
    if let Err(refusal) = schema.read(bytes) {
        return refusal_text(heap, refusal);
    }
    let nodes = schema.nodes().len();
    let columns = schema.columns().len();
    let mut text = format!(in heap; "ok {nodes} {columns}")?;
    for column in schema.columns() {
        text.push(' ')?;
        push_column(&mut text, &schema, column)?;
    }
    Ok(text)
}

/// Each node.
fn nodes_text(heap: Global, bytes: &[u8]) -> Result<String, AllocError> {
    let mut schema = Schema::new();
    // No `?`: a refusal is an answer here.
    if let Err(refusal) = schema.read(bytes) {
        return refusal_text(heap, refusal);
    }
    let mut text = String::from_str(heap, "ok")?;
    for node in schema.nodes() {
        text.push(' ')?;
        push_node(&mut text, &schema, node)?;
    }
    Ok(text)
}

/// Adds bytes in hexadecimal.
fn push_hex(text: &mut String, bytes: &[u8]) -> Result<(), AllocError> {
    for byte in bytes {
        write!(text, "{byte:02x}")?;
    }
    Ok(())
}

/// Adds a name in hexadecimal, its node's repetition and annotation.
fn push_header(text: &mut String, schema: &Schema<'_>, header: &Header) -> Result<(), AllocError> {
    push_hex(text, schema.text(header.name))?;
    let repetition = <basic::Repetition as Code>::code(header.repetition);
    let annotation = <Option<basic::ConvertedType> as Code>::code(header.annotation);
    write!(text, ".{repetition}.{annotation}")
}

/// Adds a column: its path, its leaf, and its greatest levels.
fn push_column(text: &mut String, schema: &Schema<'_>, column: &Column) -> Result<(), AllocError> {
    for (index, header) in column.path.headers().iter().enumerate() {
        if index > 0 {
            text.push('/')?;
        }
        push_header(text, schema, header)?;
    }
    let physical = <basic::PhysicalType as Code>::code(column.leaf.physical);
    let length = column.leaf.length;
    let scale = column.leaf.scale;
    let precision = column.leaf.precision;
    let float16 = <bool as Code>::code(column.leaf.float16);
    let definition = column.max_def_level;
    let repetition = column.max_rep_level;
    write!(
        text,
        ":{physical},{length},{scale},{precision},{float16}:{definition}:{repetition}"
    )
}

/// Adds a node: its header, and a group's number of fields or a leaf's physical type.
fn push_node(text: &mut String, schema: &Schema<'_>, node: &NodeEntry) -> Result<(), AllocError> {
    push_header(text, schema, &node.header)?;
    match node.body {
        Body::Group(count) => write!(text, ":group,{count}"),
        Body::Primitive(leaf) => {
            let physical = <basic::PhysicalType as Code>::code(leaf.physical);
            write!(text, ":leaf,{physical}")
        }
    }
}

/// The parts of a trace file, or why it is none.
fn head_text(heap: Global, bytes: &[u8]) -> Result<String, AllocError> {
    match Head::read(bytes) {
        Ok(head) => parts_text(heap, &head),
        Err(HeadError::TooLong) => String::from_str(heap, "too long"),
        Err(HeadError::Truncated(part)) => format!(in heap; "truncated: {part}"),
        Err(HeadError::BadForm(part)) => format!(in heap; "badform: {part}"),
        Err(HeadError::ManyRecords) => String::from_str(heap, "many records"),
    }
}

/// Both images, the number of records, the batch size and the batches.
fn parts_text(heap: Global, head: &Head<'_>) -> Result<String, AllocError> {
    let mut text = String::from_str(heap, "ok ")?;
    push_hex(&mut text, head.file_image)?;
    text.push('/')?;
    push_hex(&mut text, head.read_image)?;
    let records = head.records;
    let size = head.batch_size;
    write!(text, "/{records}/{size}/")?;
    push_hex(&mut text, head.batches)?;
    Ok(text)
}

/// What came of each build of one plan, and how the plan stands after it. The builds are heads of trace files, each
/// in the place of the batches of the one before it.
fn plan_text(heap: Global, bytes: &[u8]) -> Result<String, AllocError> {
    let mut text = String::new(heap);
    let mut plan = Plan::new();
    let mut rest = bytes;
    // A bound on the heads, each of which takes bytes; it is no index.
    for _ in 0..bytes.len() {
        let Ok(head) = Head::read(rest) else {
            return String::from_str(heap, "no head");
        };
        match plan.build(head.batch_size, head.file_image, head.read_image) {
            Ok(()) => text.push_str("ok")?,
            Err(refusal) => {
                let number = refusal.number();
                write!(text, "refused {number}")?;
            }
        }
        push_plan(&mut text, &plan)?;
        rest = head.batches;
        if rest.is_empty() {
            break;
        }
        text.push_str(" / ")?;
    }
    Ok(text)
}

/// Adds a plan's batch size and each entry of its shape.
fn push_plan(text: &mut String, plan: &Plan) -> Result<(), AllocError> {
    if let Some(size) = plan.batch_size() {
        write!(text, " {size}")?;
    }
    for entry in plan.shape() {
        text.push(' ')?;
        push_place(text, plan, entry)?;
    }
    Ok(())
}

/// Adds an entry: its form's letter, its node, and a group's number of fields or a leaf's column and kind.
fn push_place(text: &mut String, plan: &Plan, entry: &ShapeEntry) -> Result<(), AllocError> {
    let node = entry.node;
    match entry.form {
        Form::Leaf => push_value(text, plan, entry),
        Form::Optional => write!(text, "o{node}"),
        Form::Group(fields) => write!(text, "g{node}:{fields}"),
        Form::List => write!(text, "l{node}"),
        Form::Map => write!(text, "m{node}"),
    }
}

/// Adds a leaf's entry.
fn push_value(text: &mut String, plan: &Plan, entry: &ShapeEntry) -> Result<(), AllocError> {
    let node = entry.node;
    let Some(used) = plan.used().get(entry.leaf as usize) else {
        return text.push_str("unused");
    };
    let column = used.column;
    let kind = used.kind.number();
    write!(text, "v{node}:{column},{kind}")
}
