// The memory of a delivery.
ghost use Rattle.column.specs.Meaning.{coming_of};
ghost use Rattle.column.specs.Delivery.{Delivered, Chosen, batch_memory};

use crate::fault::SourceFault;
use crate::limits::MAX_BATCH;
use crate::source::BatchSource;
use crate::values::ColumnValue;

/// The levels of up to 16 triplets, and the values of those that have one.
// Arrays, since a batch is `Copy`: how many places are taken is what a delivery answers.
#[derive(Clone, Copy)]
pub struct Batch<V> {
    pub repetitions: [u8; MAX_BATCH],
    pub definitions: [u8; MAX_BATCH],
    pub values: [V; MAX_BATCH],
}

impl<V: ColumnValue> Batch<V> {
    /// Has a source hand over the next triplets of a column, up to k.
    pub fn fill<S: BatchSource>(
        &mut self,
        source: &mut S,
        column: usize,
        k: usize,
    ) -> Result<(usize, usize), SourceFault>
        ensures delivers { Delivered V.ColumnValue.val V.ColumnValue.kind (S.BatchSource.means source.old) (S.BatchSource.means source.new) column k (batch_memory self.old) (batch_memory self.new) result }
        ensures one_to_k { Chosen (coming_of (S.BatchSource.means source.old) column) k result }
    {
        source.deliver(
            column,
            k,
            &mut self.repetitions,
            &mut self.definitions,
            &mut self.values,
        )
    }
}
