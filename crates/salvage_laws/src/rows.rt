//! Laws of one row, each the contract of a function that does nothing.

ghost use Rattle.salvage_model.specs.RowLaws.{HasOneJudgement};

/// The columns of a row have at most one list of verdicts.
pub fn row_has_one_judgement()
    ensures { HasOneJudgement }
{}
