// The columns of a source, taken from a plan by value.
ghost use Rattle.std.specs.Prelude.{◌≡◌, ◌<◌, OnSome};
ghost use Rattle.column.specs.Columns.{plan_shapes, shapes_in, shape_in};

use crate::limits::MAX_COLUMNS;
use crate::shape::ColumnShape;
use arrayvec::ArrayVec;
use plan::Plan;

/// What a source's columns are, in order.
#[derive(Drop)]
pub struct ColumnTable {
    shapes: ArrayVec<ColumnShape, MAX_COLUMNS>,
}

impl ColumnTable {
    /// The file columns of a plan; none of an unbuilt one.
    pub fn of(plan: &Plan) -> ColumnTable
        ensures columns { shapes_in result ≡ plan_shapes plan.now }
    {
        let columns = plan.columns();
        let mut shapes = ArrayVec::new();
        for column in &columns[0..columns.len().min(MAX_COLUMNS)] {
            shapes.push(ColumnShape::from(column));
        }
        ColumnTable { shapes }
    }

    /// What the column with a number is, if there is such a column.
    pub fn get(&self, column: usize) -> Option<ColumnShape>
        ensures tells { result ≡ shape_in (shapes_in self.now) column }
        ensures below_64 { OnSome result (column < 64) }
    {
        self.shapes.as_slice().get(column).copied()
    }
}
