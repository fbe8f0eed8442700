// A list of entries as a source.
ghost use Rattle.column.specs.EntryLists.{list_means};

use super::EntryList;
use crate::asking::copy_bytes;
use crate::fault::SourceFault;
use crate::shape::ColumnShape;
use crate::source::BatchSource;
use crate::values::ColumnValue;
use value::Run;

impl<'a> BatchSource for EntryList<'a> {
    ghost means = { list_means };

    ghost sound = { λ s. s.sound };

    fn column(&self, column: usize) -> Option<ColumnShape> {
        self.table.get(column)
    }

    fn deliver<V: ColumnValue>(
        &mut self,
        column: usize,
        k: usize,
        repetitions: &mut [u8],
        definitions: &mut [u8],
        values: &mut [V],
    ) -> Result<(usize, usize), SourceFault> {
        self.hand_over(column, k, repetitions, definitions, values)
    }

    fn copy_run(&self, run: Run, memory: &mut [u8]) -> Result<(), SourceFault> {
        copy_bytes(self.pool, run, memory)
    }
}
