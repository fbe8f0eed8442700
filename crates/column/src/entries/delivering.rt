// Delivering triplets of a list of entries.
ghost use Rattle.std.specs.Prelude.{◌≡◌, ◌+◌, ◌<◌, ◌≤◌, length, drop, position, IfSome};
ghost use Rattle.column.specs.Meaning.{coming_of};
ghost use Rattle.column.specs.Delivery.{slices, Delivered, Chosen};
ghost use Rattle.column.specs.EntryLists.{list_means};
ghost use Rattle.column.specs.Entries.{of_column};
ghost use Rattle.column.specs.Gathering.{Sought, OfKind, ColumnOfKind, Written, Gathered};

use super::EntryList;
use crate::asking::is_askable;
use crate::entry::Entry;
use crate::fault::{MISUSE, SourceFault};
use crate::values::ColumnValue;
use value::Value;

/// What one walk has taken: the place that comes next, and how many levels and values.
#[derive(Clone, Copy)]
pub(crate) struct Taken {
    at: usize,
    levels: usize,
    present: usize,
}

/// How many entries come before the first one of a column.
fn passed(entries: &[Entry], column: usize) -> Option<usize>
    ensures first { result ≡ position (of_column column) entries.now }
    ensures within { IfSome result (λ i. i < length entries.now) }
{
    entries.iter().position(|entry| entry.column == column)
}

/// The place of the next entry of a column, from a place on.
fn next_of(entries: &[Entry], column: usize, from: usize) -> Option<usize>
    ensures { Sought entries.now column from result }
{
    let i = passed(entries.get(from..)?, column)?;
    Some(from + i)
}

/// Writes a value, if there is one, behind the others, and answers how many there are then.
fn put<V: ColumnValue>(value: Option<Value>, values: &mut [V], present: usize) -> usize
    requires room { present < length values.old }
    requires kind { OfKind V.ColumnValue.kind value }
    ensures { Written V.ColumnValue.val value values.old values.new present result }
{
    let Some(value) = value else {
        return present;
    };
    let Some(v) = V::from_value(value) else {
        return present;
    };
    values[present] = v;
    present + 1
}

/// Takes up to k triplets of a column, from a place on.
// The parts of a request are passed as `BatchSource::deliver` has them.
fn gather<V: ColumnValue>(
    entries: &[Entry],
    column: usize,
    from: usize,
    k: usize,
    repetitions: &mut [u8],
    definitions: &mut [u8],
    values: &mut [V],
) -> Taken
    requires room { (k ≤ length repetitions.old) × (k ≤ length definitions.old) × (k ≤ length values.old) }
    requires kind { ColumnOfKind V.ColumnValue.kind column entries.now }
    ensures { Gathered V.ColumnValue.val entries.now column from k (slices repetitions.old definitions.old values.old) (slices repetitions.new definitions.new values.new) result.at result.levels result.present }
{
    let mut at = from;
    let mut present = 0;
    // By number: how many levels were taken before the entries end is what is answered, and both memories are written there.
    for levels in 0..k {
        let Some(i) = next_of(entries, column, at) else {
            return Taken {
                at: entries.len(),
                levels,
                present,
            };
        };
        let entry = entries[i];
        repetitions[levels] = entry.repetition;
        definitions[levels] = entry.definition;
        present = put(entry.value, values, present);
        at = i + 1;
    }
    Taken {
        at,
        levels: k,
        present,
    }
}

impl<'a> EntryList<'a> {
    /// Hands over the next triplets of a column, up to k.
    // A function of its own, to which the trait's call hands its request on; the parts of a request are passed as there.
    pub(super) fn hand_over<V: ColumnValue>(
        &mut self,
        column: usize,
        k: usize,
        repetitions: &mut [u8],
        definitions: &mut [u8],
        values: &mut [V],
    ) -> Result<(usize, usize), SourceFault>
        ensures delivers { Delivered V.ColumnValue.val V.ColumnValue.kind (list_means self.old) (list_means self.new) column k (slices repetitions.old definitions.old values.old) (slices repetitions.new definitions.new values.new) result }
        ensures one_to_k { Chosen (coming_of (list_means self.old) column) k result }
    {
        let shape = self.table.get(column);
        if !is_askable(
            shape,
            V::value_kind(),
            k,
            repetitions.len(),
            definitions.len(),
            values.len(),
        ) {
            return Err(MISUSE);
        }
        let from = self.cursors[column];
        let taken = gather(
            self.entries,
            column,
            from,
            k,
            repetitions,
            definitions,
            values,
        );
        self.cursors[column] = taken.at;
        match self.fault {
            Some(fault) if taken.levels == 0 => Err(fault),
            _ => Ok((taken.levels, taken.present)),
        }
    }
}
