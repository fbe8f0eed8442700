// What the program answers to a command.
use crate::columns::listing;
use crate::command::Command;
use crate::refusal::refused;
use crate::shape::drawing;
use plan::{BuildRefusal, Plan};
use schema::{ImageRefusal, Schema};
use std::alloc::{AllocError, Global};
use trace_file::{Head, HeadError};

/// Why a file is not told of.
#[derive(Clone, Copy)]
enum Untold {
    /// Memory ran out.
    Memory(AllocError),
    /// It is no trace file.
    NoTrace(HeadError),
    /// One of its images, or the plan over them, is refused.
    Refused(BuildRefusal),
}

impl From<AllocError> for Untold {
    fn from(error: AllocError) -> Untold {
        Untold::Memory(error)
    }
}

impl From<HeadError> for Untold {
    fn from(error: HeadError) -> Untold {
        Untold::NoTrace(error)
    }
}

impl From<ImageRefusal> for Untold {
    fn from(refusal: ImageRefusal) -> Untold {
        Untold::Refused(BuildRefusal::Image(refusal))
    }
}

impl From<BuildRefusal> for Untold {
    fn from(refusal: BuildRefusal) -> Untold {
        Untold::Refused(refusal)
    }
}

/// What a command tells of a file, or the line that says why there is nothing to tell.
pub(crate) fn report(heap: Global, command: Command, file: &[u8]) -> Result<String, AllocError> {
    match told(heap, command, file) {
        Ok(text) => Ok(text),
        Err(Untold::Memory(error)) => Err(error),
        Err(Untold::NoTrace(error)) => no_trace(heap, error, file.len()),
        Err(Untold::Refused(refusal)) => refused(heap, refusal),
    }
}

/// What a command tells of a file.
fn told(heap: Global, command: Command, file: &[u8]) -> Result<String, Untold> {
    let head = Head::read(file)?;
    match command {
        Command::Columns => columns(heap, &head),
        Command::Shape => shape(heap, &head),
    }
}

/// What `columns` tells of a file.
// By itself, so that it needs no stack for a plan, which it makes none of.
#[inline(never)]
fn columns(heap: Global, head: &Head<'_>) -> Result<String, Untold> {
    let mut schema = Schema::new();
    schema.read(head.file_image)?;
    Ok(listing(heap, head, &schema)?)
}

/// What `shape` tells of a file.
#[inline(never)]
fn shape(heap: Global, head: &Head<'_>) -> Result<String, Untold> {
    let mut plan = Plan::new();
    plan.build(head.batch_size, head.file_image, head.read_image)?;
    Ok(drawing(heap, head.batch_size, &plan)?)
}

/// The line of a file that is no trace. One that is too long was not read to its end.
fn no_trace(heap: Global, error: HeadError, len: usize) -> Result<String, AllocError> {
    match error {
        HeadError::TooLong => format!(in heap; "trace: {error}\n"),
        _ => format!(in heap; "trace: {error} (file of {len} bytes)\n"),
    }
}
