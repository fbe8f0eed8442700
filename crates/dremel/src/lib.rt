//! Shredding rows into columns of triplets and assembling them again: the definitions, and the theorem that the two
//! agree. There is nothing to run here; each function stands for what its contract says.
#![tactic(auto)]

ghost use Rattle.dremel.specs.Agreement.{Agreement, Runs, ShreddingIsFaithful, Unrolled};
ghost use Rattle.dremel.specs.Levels.{LevelsAreTheSchemas};
ghost use Rattle.dremel.specs.Looks.{Looks, LooksUnrolled};
ghost use Rattle.dremel.specs.Samples.{Samples};
ghost use Rattle.dremel.specs.Document.{PaperExample};

/// Assembling a record is the inverse of shredding a row: it answers the one fitting row that shreds to the columns'
/// whole segments and takes just these off, and declines exactly where there is none or a column faults, at a place
/// of the column that it names.
pub fn assembly_agrees()
    ensures agrees { Agreement }
{}

/// Whole columns are those of n fitting rows exactly if n records are passed, one after the other, and nothing is left.
pub fn runs_agree()
    ensures runs { Runs }
{}

/// A row gives each used column a segment of its own, and no two rows give the same ones.
pub fn shredding_is_faithful()
    ensures faithful { ShreddingIsFaithful }
{}

/// The walk takes the entries of a list or map, and looks at them, until the first column ends them, never because a
/// bound on its steps is met.
pub fn entries_unroll()
    ensures unrolled { Unrolled }
    ensures looks { LooksUnrolled }
{}

/// The shape that the rules give a read schema numbers its leaves in order and has the levels of the schema's columns,
/// so what is said of shapes that name no column twice is said of every built plan.
pub fn shapes_number_their_leaves()
    ensures leveled { LevelsAreTheSchemas }
{}

/// A record that is passed looks at each used column through its segment and one more; one that is declined at no column
/// further than that, and at the fault's column just up to the fault.
pub fn looks_are_bounded()
    ensures looks { Looks }
{}

/// Worked examples: small columns, and the schema, records and columns of the Dremel paper.
pub fn examples_hold()
    ensures samples { Samples }
    ensures paper { PaperExample }
{}
