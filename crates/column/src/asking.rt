// What sources do alike: try a request, and copy from the pool.
ghost use Rattle.std.specs.Prelude.{◌≡◌};
ghost use Rattle.column.specs.Meaning.{kind_of, run_lies};
ghost use Rattle.column.specs.Delivery.{askable, CopiedRun};

use crate::fault::{MISUSE, SourceFault};
use crate::limits::{MAX_BATCH, MAX_RUN};
use crate::shape::ColumnShape;
use plan::ValueKind;
use value::{Run, Value};

/// The kind of a value.
// A function: an `impl` is barred here, where both types are other crates', and would be one more public promise there.
pub(crate) fn kind_of(value: Value) -> ValueKind
    ensures { result ≡ kind_of value }
{
    match value {
        Value::Word(_) => ValueKind::Word,
        Value::Int96(_) => ValueKind::Int96,
        Value::Run(_) => ValueKind::Run,
    }
}

/// Whether up to k triplets of a kind may be asked of a column with a shape, given room for so many
/// repetitions, definitions and values.
// The lengths alone: a struct of three numbers would be made for this one call, from three slices.
pub fn is_askable(
    shape: Option<ColumnShape>,
    kind: ValueKind,
    k: usize,
    repetitions: usize,
    definitions: usize,
    values: usize,
) -> bool
    ensures { result ≡ askable shape kind k repetitions definitions values }
{
    let Some(shape) = shape else {
        return false;
    };
    shape.kind == kind
        && 0 < k
        && k <= MAX_BATCH
        && k <= repetitions
        && k <= definitions
        && k <= values
}

/// Whether a run is not too long and lies in a pool of so many bytes.
pub(crate) fn run_lies(pool: usize, run: Run) -> bool
    ensures { result ≡ run_lies pool run }
{
    run.length <= MAX_RUN
        && run.place <= pool as u64
        && run.length as u64 <= pool as u64 - run.place
}

/// Copies the bytes of a run to the front of the memory.
pub fn copy_bytes(pool: &[u8], run: Run, memory: &mut [u8]) -> Result<(), SourceFault>
    ensures copies { CopiedRun pool.now run memory.old memory.new result }
{
    let length = run.length as usize;
    if !run_lies(pool.len(), run) || length > memory.len() {
        return Err(MISUSE);
    }
    let place = run.place as usize;
    memory[0..length].copy_from_slice(&pool[place..place + length]);
    Ok(())
}
