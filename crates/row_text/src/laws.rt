//! Laws of lines and of the texts of keys, each the contract of a function that does nothing.

ghost use Rattle.row_text.specs.Laws.{LineOpens, LineGoesOn, LineCloses, NoPart, PartsJoin, PartIsValue, PartsAreValue};
ghost use Rattle.row_text.specs.Laws.{HasOneLine, HasOneRow, BeginsNoOther, HasOneKeyText, HasOneKey};

/// The pieces that a writer adds for the values of a row, one after another, are the row's line.
pub fn pieces_are_the_line()
    ensures opens { LineOpens }
    ensures goes_on { LineGoesOn }
    ensures closes { LineCloses }
{}

/// A long value has one text, in whatever parts its bytes come.
pub fn parts_are_the_value()
    ensures none { NoPart }
    ensures join { PartsJoin }
    ensures one { PartIsValue }
    ensures whole { PartsAreValue }
{}

/// A row has one line, and a line is that of one row; with its LF it begins no other line.
pub fn lines_are_unique()
    ensures one_line { HasOneLine }
    ensures one_row { HasOneRow }
    ensures no_other { BeginsNoOther }
{}

/// A key has one text, and a text is that of one key.
pub fn key_texts_are_unique()
    ensures one_text { HasOneKeyText }
    ensures one_key { HasOneKey }
{}
