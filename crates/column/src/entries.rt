// A source over a list of entries.
ghost use Rattle.std.specs.Prelude.{◌≡◌, ◌<◌, true, length};
ghost use Rattle.column.specs.Columns.{shapes_in};
ghost use Rattle.column.specs.Entries.{all_good, entries_left};
ghost use Rattle.column.specs.Meaning.{Sound};

use crate::entry::Entry;
use crate::fault::SourceFault;
use crate::limits::MAX_COLUMNS;
use crate::table::ColumnTable;

pub(crate) mod calls;
mod delivering;
mod making;

/// Delivers the triplets of a list of entries. It is no copy of another: each column has a cursor of its own.
#[derive(Drop)]
pub struct EntryList<'a> {
    table: ColumnTable,
    // Those before the first bad one.
    entries: &'a [Entry],
    pool: &'a [u8],
    // What ends every column, if it is no clean end.
    fault: Option<SourceFault>,
    // For each column, the entries before this have been passed. Beside the table, which any source can have as it is.
    cursors: [usize; MAX_COLUMNS],
    ghost good: { all_good (shapes_in table) (length pool.now) entries.now ≡ true },
    ghost few: { length entries.now < 2147483648 },
    ghost sound: { Sound (entries_left (shapes_in table) entries.now cursors fault pool.now) },
}
