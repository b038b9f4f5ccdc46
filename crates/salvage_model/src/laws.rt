//! Laws of one row, each the contract of a function that does nothing.

ghost use Rattle.salvage_model.specs.RowLaws.{WholeLinesAreLines, WholeRowsAreRead};

/// The line of a row of which nothing is lost is that of a dump.
#[tactic(auto, using(crate::proofs::WholeRows::whole_lines))]
pub fn whole_lines_are_lines()
    ensures { WholeLinesAreLines }
{}

/// The values of a row that is whole are those that are read of it.
#[tactic(auto, using(crate::proofs::WholeRows::whole_rows))]
pub fn whole_rows_are_read()
    ensures { WholeRowsAreRead }
{}
