// Lines of cells.
use std::alloc::{AllocError, Global};
use std::fmt::Write;

/// How far apart cells stand.
const GAP: &str = "  ";

/// Lines of cells, to be written with each column as wide as its widest cell.
#[derive(Drop)]
pub struct Table {
    lines: Vec<Vec<String>>,
}

impl Table {
    /// A table with no lines.
    pub(crate) fn new(heap: Global) -> Table {
        Table {
            lines: Vec::new(heap),
        }
    }

    /// Adds a line.
    pub(crate) fn push(&mut self, cells: Vec<String>) -> Result<(), AllocError> {
        self.lines.push(cells)?;
        Ok(())
    }

    /// The width of the widest cell at an index.
    fn width(&self, index: usize) -> usize {
        self.lines
            .iter()
            .filter_map(|cells| cells.get(index))
            .map(|cell| cell.as_str().chars().count())
            .max()
            .unwrap_or(0)
    }

    /// The widths at all indexes of the first line.
    fn widths(&self, heap: Global) -> Result<Vec<usize>, AllocError> {
        let cells = self.lines.first().map_or(0, |first| first.len());
        (0..cells).map(|index| self.width(index)).collect(heap)
    }

    /// Adds the lines to a text.
    pub(crate) fn write(&self, heap: Global, text: &mut String) -> Result<(), AllocError> {
        let widths = self.widths(heap)?;
        for cells in self.lines.iter() {
            write_line(text, cells.as_slice(), widths.as_slice())?;
        }
        Ok(())
    }
}

/// Adds a line to a text; nothing is filled up after its last cell.
fn write_line(text: &mut String, cells: &[String], widths: &[usize]) -> Result<(), AllocError> {
    for (index, (cell, &width)) in cells.iter().zip(widths).enumerate() {
        if index > 0 {
            text.push_str(GAP)?;
        }
        if index + 1 < cells.len() {
            write!(text, "{cell:<width$}")?;
        } else {
            text.push_str(cell.as_str())?;
        }
    }
    text.push('\n')
}
