//! Laws of what the program defines, each the contract of a function that does nothing.

ghost use Rattle.ibd_cli.specs.Laws.{InputsHaveOneOutcome, TextsHaveOneOutcome, BuiltFilesDumpAsRead};

use cross_index::laws::has_one_difference;
use key_lookup::laws::{finds_one_line, look_up_has_one_answer, text_spells_one_key};
use schema_text::laws::{has_one_schema, texts_pass};
use space_builder::laws::{
    a_build_has_one_outcome, good_texts_are_of_rows, good_texts_build_a_valid_tablespace,
};
use sql_dump::laws::sound_files_have_one_dump;
use table_check::laws::{checks_are_validity, first_has_one_answer};

/// A command on a table has one status and one output at the most, by the schema text, the file and the text of a key.
pub fn inputs_have_one_outcome()
    ensures { InputsHaveOneOutcome }
{
    has_one_schema();
    texts_pass();
    first_has_one_answer();
    checks_are_validity();
    has_one_difference();
    look_up_has_one_answer();
    text_spells_one_key();
    sound_files_have_one_dump();
    finds_one_line();
}

/// A build has one status and one output at the most, by its two texts.
pub fn texts_have_one_outcome()
    ensures { TextsHaveOneOutcome }
{
    has_one_schema();
    texts_pass();
    a_build_has_one_outcome();
}

/// What was built of a schema text and a text of rows is dumped, with that schema text, as that text of rows, and in no
/// other way.
pub fn built_files_dump_as_read()
    ensures { BuiltFilesDumpAsRead }
{
    inputs_have_one_outcome();
    checks_are_validity();
    good_texts_build_a_valid_tablespace();
    good_texts_are_of_rows();
}
