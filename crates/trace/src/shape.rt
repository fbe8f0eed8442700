// `shape`: the shape of the rows of a trace file, as a tree.
use crate::columns::counted;
use crate::escape::push_name;
use plan::{Form, Plan, ShapeEntry};
use std::alloc::{AllocError, Global};
use std::fmt::Write;

/// How far a line stands in from the one above its place.
const INDENT: &str = "  ";

/// The tree of the shape, a line for each entry, and a line that says what the rows use.
pub(crate) fn drawing(heap: Global, batch_size: u64, plan: &Plan) -> Result<String, AllocError> {
    let mut text = String::new(heap);
    let mut open = Vec::new(heap);
    for entry in plan.shape() {
        for _ in &open {
            text.push_str(INDENT)?;
        }
        push_entry(heap, &mut text, plan, entry)?;
        pass(&mut open, beneath(entry.form))?;
    }
    push_closing(heap, &mut text, batch_size, plan)?;
    Ok(text)
}

/// How many entries stand right beneath one.
fn beneath(form: Form) -> u64 {
    match form {
        Form::Leaf => 0,
        Form::Optional | Form::List => 1,
        Form::Map => 2,
        Form::Group(fields) => fields,
    }
}

/// Passes an entry with so many beneath it. The counts, outermost first, are of the entries still to be passed
/// beneath each that is open, the one being passed included.
fn pass(open: &mut Vec<u64>, beneath: u64) -> Result<(), AllocError> {
    if beneath > 0 {
        open.push(beneath)?;
        return Ok(());
    }
    while let Some(left) = open.pop() {
        if left > 1 {
            open.push(left - 1)?;
            return Ok(());
        }
    }
    Ok(())
}

/// Adds an entry's line: the name of its node, and what stands there.
fn push_entry(
    heap: Global,
    text: &mut String,
    plan: &Plan,
    entry: &ShapeEntry,
) -> Result<(), AllocError> {
    if let Some(name) = plan.name(entry.node as usize) {
        push_name(heap, text, name)?;
    }
    text.push_str(": ")?;
    match entry.form {
        Form::Leaf => push_leaf(text, plan, entry.leaf as usize)?,
        Form::Optional => text.push_str("optional")?,
        Form::Group(_) => text.push_str("group")?,
        Form::List => text.push_str("list")?,
        Form::Map => text.push_str("map")?,
    }
    text.push('\n')
}

/// Adds what a leaf is shown as, and the file column that it uses.
fn push_leaf(text: &mut String, plan: &Plan, leaf: usize) -> Result<(), AllocError> {
    let Some(used) = plan.used().get(leaf) else {
        return Ok(());
    };
    let kind = used.kind;
    let column = used.column;
    write!(text, "{kind} (column {column})")
}

/// Adds the line that says what the rows use. No two leaves use the same column.
fn push_closing(
    heap: Global,
    text: &mut String,
    batch_size: u64,
    plan: &Plan,
) -> Result<(), AllocError> {
    let used = plan.used().len();
    let leaves = if used == 1 { "leaf uses" } else { "leaves use" };
    let columns = counted(heap, plan.columns().len(), "column")?;
    write!(
        text,
        "{used} {leaves} {used} of {columns}; batch size {batch_size}\n"
    )
}
