//! Laws of the definitions, each the contract of a function that does nothing.

ghost use Rattle.schema_text.specs.Grammar.{IsTable};
ghost use Rattle.key_lookup.specs.Laws.{FindsRowIn, FindsInValid, GetFirstHasOneAnswer, SpellsOneKey, FindsOneLine};

use column_values::laws::spellings_are_unique;
use index_page::laws::{checks_are_an_index_page, keys_rise_throughout};
use offpage_chain::laws::has_one_chain;
use row_text::laws::key_texts_are_unique;
use schema_text::Schema;
use schema_text::laws::lists_are_of_one_index;
use table_check::laws::checks_are_validity;

/// In a tree by descent the way to a key ends at the leaf of the row with the key, so that the row is found.
pub fn finds_row()
    ensures { FindsRowIn }
{
    keys_rise_throughout();
}

/// In a sound file no check of a look-up is broken, and the row that is found is the one of the table with the key.
pub fn finds_in_valid()
    ensures { FindsInValid }
{
    keys_rise_throughout();
    checks_are_an_index_page();
    has_one_chain();
    lists_are_of_one_index();
    checks_are_validity();
}

/// A schema is that of a table.
pub(crate) fn schema_is_table(schema: &Schema)
    ensures { IsTable schema.now }
{
    let _ = schema.columns();
}

/// The text of a key spells no other one.
pub fn text_spells_one_key()
    ensures { SpellsOneKey }
{
    key_texts_are_unique();
}

/// The checks of a look-up have one answer: the first broken one, or none.
pub fn look_up_has_one_answer()
    ensures { GetFirstHasOneAnswer }
{}

/// A key has one line at the most: that of the one row that is found, whose bytes spell one value each.
pub fn finds_one_line()
    ensures { FindsOneLine }
{
    spellings_are_unique();
}
