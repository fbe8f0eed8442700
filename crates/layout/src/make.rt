// Making cells.
ghost use Rattle.std.specs.Prelude.{◌≡◌, ℕ, ◌+◌, ◌<◌, true, false, List, [], length as length_of, MatchOption};
ghost use Rattle.value.specs.Leaves.{shows_bytes};
ghost use Rattle.value.specs.Values.{int96};
ghost use Rattle.layout.specs.Cells.{cell_number, has_bytes, item, counted as counted_by, worded, written, cell_at, count_cell, word_cell, bytes_cell, zero_cell, Names};
ghost use Rattle.layout.specs.Rows.{stored};
ghost use Rattle.layout.specs.Laws.{LayoutDetermines, StoredTells, StoredDetermines, Bounded, ShapesOfPlans, CellsNameBytes};
ghost use Rattle.layout.specs.Examples.{LayoutExamples};

use crate::cell::{Cell, CellKind};
use plan::FieldKind;
use value::Int96;

impl CellKind {
    /// The kind's number, from 0: those of the fields, then 24, 25 and 26.
    // A match: a field as shown has the number of its own kind.
    #[tactic(auto, using(crate::proofs::Samples::layout_examples))]
    pub fn number(self) -> u8
        ensures number { result ≡ cell_number self }
        ensures worked_examples { LayoutExamples }
    {
        match self {
            CellKind::Shown(field) => field.number(),
            CellKind::StoredWord => 24,
            CellKind::StoredInt96 => 25,
            CellKind::StoredRun => 26,
        }
    }
}

impl Cell {
    /// The cell in which all is zero.
    pub fn empty() -> Cell
        ensures zero { result ≡ zero_cell }
    {
        Cell {
            kind: CellKind::Shown(FieldKind::Null),
            node: 0,
            count: 0,
            word: 0,
            start: 0,
            length: 0,
        }
    }

    /// A null, or a group, a list or a map with its count of fields, elements or pairs.
    pub fn counted(node: u32, kind: FieldKind, count: u32) -> Cell
        ensures tells { result ≡ count_cell kind node count }
        ensures laid { shows_bytes kind ≡ false → (at : ℕ) → result ≡ cell_at at (item node (counted_by kind count)) }
        ensures layout_determines { LayoutDetermines }
        ensures shapes_of_plans { ShapesOfPlans }
    {
        Cell {
            kind: CellKind::Shown(kind),
            node,
            count,
            ..Cell::empty()
        }
    }

    /// A leaf that has a word.
    pub fn word(node: u32, kind: CellKind, word: u64) -> Cell
        ensures tells { result ≡ word_cell kind node word }
        ensures laid { has_bytes kind ≡ false → (at : ℕ) → result ≡ cell_at at (item node (worded kind word)) }
        ensures stored_tells { StoredTells }
    {
        Cell {
            kind,
            node,
            word,
            ..Cell::empty()
        }
    }

    /// A leaf that has bytes, and where they begin among those of the row.
    pub fn bytes(node: u32, kind: CellKind, start: u64, length: u32) -> Cell
        ensures tells { result ≡ bytes_cell kind node start length }
        ensures laid { has_bytes kind ≡ true → (bs : List ℕ) → length_of bs ≡ length → result ≡ cell_at start (item node (written kind bs)) }
        ensures bounded { Bounded }
    {
        Cell {
            kind,
            node,
            start,
            length,
            ..Cell::empty()
        }
    }

    /// A leaf that is stored as three numbers.
    pub fn stored_int96(node: u32, value: Int96) -> Cell
        ensures laid { (at i : ℕ) → result ≡ cell_at at (item node (stored i (int96 value.low value.middle value.high))) }
        ensures stored_determines { StoredDetermines }
    {
        Cell {
            kind: CellKind::StoredInt96,
            node,
            count: value.high,
            word: u64::from(value.low) + (u64::from(value.middle) << 32),
            ..Cell::empty()
        }
    }

    /// The part of a row's bytes that the cell names, or none where it passes them.
    #[tactic(auto, using(crate::proofs::Places::cells_name_bytes))]
    pub fn part<'a>(&self, memory: &'a [u8]) -> Option<&'a [u8]>
        ensures names { MatchOption result (length_of memory.now < self.now.start + self.now.length) (λ p. Names self.now memory.now p.now) }
        ensures cells_name_bytes { CellsNameBytes }
    {
        memory
            .get(self.start as usize..)?
            .get(..self.length as usize)
    }
}
