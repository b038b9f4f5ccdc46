//! Laws of the texts of schemas.

ghost use Rattle.schema_text.specs.Laws.{ChecksHaveOneAnswer, GoodLinesSpell, HasOneSchema, HasOneText};
ghost use Rattle.schema_text.specs.Laws.{LinesHaveOneTable, ListsAreOfOneIndex, TextsHaveAnAnswer, TextsPass};
ghost use Rattle.schema_text.specs.Laws.{TextsReadBack};

/// A schema has one text.
pub fn has_one_text()
    ensures { HasOneText }
{}

/// A text is that of one schema at the most, and lines are those of one table so far.
pub fn has_one_schema()
    ensures texts { HasOneSchema }
    ensures lines { LinesHaveOneTable }
{}

/// A text in which the checks find nothing is that of a schema.
pub fn good_lines_spell()
    ensures { GoodLinesSpell }
{}

/// The checks find nothing in a schema's text, and they have one answer for each text.
pub fn texts_pass()
    ensures pass { TextsPass }
    ensures one_answer { ChecksHaveOneAnswer }
{}

/// For each text the checks find nothing, or a first bad line and why it is refused.
pub fn texts_have_an_answer()
    ensures { TextsHaveAnAnswer }
{}

/// What is read of a schema's text is this schema, unless memory runs out.
pub fn texts_read_back()
    ensures { TextsReadBack }
{}

/// The two field lists of an index belong together.
pub fn lists_are_of_one_index()
    ensures { ListsAreOfOneIndex }
{}
