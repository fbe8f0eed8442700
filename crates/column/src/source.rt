// What delivers the triplets of columns.
ghost use Rattle.std.specs.Prelude.{◌≡◌};
ghost use Rattle.column.specs.Meaning.{Meaning, Sound, told, coming_of};
ghost use Rattle.column.specs.Delivery.{Delivered, Chosen, slices, CopiedRun};

use crate::fault::SourceFault;
use crate::shape::ColumnShape;
use crate::values::ColumnValue;
use value::Run;

/// Delivers the triplets of columns, some at a time, and holds a pool of bytes for the values that are runs.
///
/// `means` is what a source has ahead: every clause speaks of it. A delivery takes the next triplets off one
/// column and changes nothing else. How many it takes is its own choice, within `one_to_k`; all else is fixed.
pub trait BatchSource {
    ghost means: { Self → Meaning };

    ghost sound: { (s : Self) → Sound (means s) };

    /// A column's kind and maxima, or nothing where there is no such column.
    fn column(&self, column: usize) -> Option<ColumnShape>
        ensures tells { result ≡ told (means self.now) column };

    /// Hands over the next triplets of a column, up to k: the levels, and the values of those at the maximal
    /// definition. Answers how many levels and how many values; none and none at the end.
    // A column, a number and three slices: a struct of them would need a clause for each slice, in every contract, that
    // it still is the same memory.
    fn deliver<V: ColumnValue>(
        &mut self,
        column: usize,
        k: usize,
        repetitions: &mut [u8],
        definitions: &mut [u8],
        values: &mut [V],
    ) -> Result<(usize, usize), SourceFault>
        ensures delivers { Delivered V.ColumnValue.val V.ColumnValue.kind (means self.old) (means self.new) column k (slices repetitions.old definitions.old values.old) (slices repetitions.new definitions.new values.new) result }
        ensures one_to_k { Chosen (coming_of (means self.old) column) k result };

    /// Copies bytes of the pool, those of a triplet's run, of a part of one or any others, to the front of the memory.
    fn copy_run(&self, run: Run, memory: &mut [u8]) -> Result<(), SourceFault>
        ensures copies { CopiedRun (means self.now).pool run memory.old memory.new result };
}
