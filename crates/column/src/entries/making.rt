// Making a source over a list of entries: each entry is looked at once.
ghost use Rattle.std.specs.Prelude.{◌≡◌, ◌≤◌, true, length};
ghost use Rattle.std.specs.Result.{result_err};
ghost use Rattle.column.specs.Columns.{plan_shapes, shapes_in};
ghost use Rattle.column.specs.Entries.{triplet_of, triplet_fault, entry_fault, Checked, entries_mean};
ghost use Rattle.column.specs.EntryLists.{list_means};
ghost use Rattle.column.specs.Examples.{EntryExamples};

use super::EntryList;
use crate::asking::{kind_of, run_lies};
use crate::entry::Entry;
use crate::fault::{SourceFault, SourceFaultKind};
use crate::limits::{MAX_COLUMNS, MAX_MEMORY};
use crate::shape::ColumnShape;
use crate::table::ColumnTable;
use plan::Plan;
use value::Value;

/// Tries an entry of a column of this shape, over a pool of so many bytes; an error is what is wrong with it.
fn check_triplet(shape: ColumnShape, pool: usize, entry: Entry) -> Result<(), SourceFaultKind>
    ensures { result_err result ≡ triplet_fault shape pool (triplet_of entry) }
{
    let at_max = entry.definition == shape.max_def_level;
    match entry.value {
        None if at_max => Err(SourceFaultKind::BadValues),
        None => Ok(()),
        Some(value) if !at_max || kind_of(value) != shape.kind => Err(SourceFaultKind::BadValues),
        Some(Value::Run(run)) if !run_lies(pool, run) => Err(SourceFaultKind::BadRun),
        Some(_) => Ok(()),
    }
}

/// Tries an entry; an error is what is wrong with it.
fn check_entry(table: &ColumnTable, pool: usize, entry: Entry) -> Result<(), SourceFaultKind>
    ensures { result_err result ≡ entry_fault (shapes_in table.now) pool entry }
{
    let shape = table.get(entry.column).ok_or(SourceFaultKind::BadColumn)?;
    check_triplet(shape, pool, entry)
}

/// How many entries come before the first bad one, and the fault that this is.
fn checked(table: &ColumnTable, pool: usize, entries: &[Entry]) -> (usize, Option<SourceFault>)
    ensures { Checked (shapes_in table.now) pool entries.now result.0 result.1 }
{
    for (i, entry) in entries.iter().enumerate() {
        if let Err(kind) = check_entry(table, pool, *entry) {
            let fault = SourceFault {
                kind,
                place: i as u64,
            };
            return (i, Some(fault));
        }
    }
    (entries.len(), None)
}

impl<'a> EntryList<'a> {
    /// A source over the entries and their pool, with the columns of a plan.
    pub fn new(plan: &Plan, entries: &'a [Entry], pool: &'a [u8]) -> EntryList<'a>
        ensures means { list_means result ≡ entries_mean (plan_shapes plan.now) entries.now pool.now }
        ensures worked_examples { EntryExamples }
    {
        let table = ColumnTable::of(plan);
        if entries.len() > MAX_MEMORY || pool.len() > MAX_MEMORY {
            let fault = SourceFault {
                kind: SourceFaultKind::TooLarge,
                place: 0,
            };
            return EntryList {
                table,
                entries: &entries[0..0],
                pool: &pool[0..0],
                fault: Some(fault),
                cursors: [0; MAX_COLUMNS],
            };
        }
        let (good, fault) = checked(&table, pool.len(), entries);
        EntryList {
            table,
            entries: &entries[0..good],
            pool,
            fault,
            cursors: [0; MAX_COLUMNS],
        }
    }
}
