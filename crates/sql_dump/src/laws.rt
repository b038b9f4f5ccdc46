//! A sound file has one dump of its table; and laws by which the rows of a checked table can be read.
//! Each is the contract of a function that does nothing.

ghost use Rattle.schema_text.specs.Grammar.{IsTable};
ghost use Rattle.sql_dump.specs.Laws.{CheckedCanBeRead, SoundFilesHaveOneDump};

use column_values::laws::spellings_are_unique;
use offpage_chain::laws::{chain_goes_on, checks_are_whole, has_one_chain};
use schema_text::Schema;
use space_audit::laws::audit_is_soundness;
use table_check::laws::checks_are_validity;
use tree_walk::laws::rows_can_be_read;

/// A sound file has a dump of its table, and no other.
pub fn sound_files_have_one_dump()
    ensures { SoundFilesHaveOneDump }
{
    checks_are_validity();
    checked_can_be_read();
    spellings_are_unique();
}

/// A schema describes a table.
pub(crate) fn schema_is_table(schema: &Schema)
    ensures { IsTable schema.now }
{
    let _ = schema.columns();
}

/// What was checked can be read.
pub(crate) fn checked_can_be_read()
    ensures { CheckedCanBeRead }
{
    audit_is_soundness();
    rows_can_be_read();
    has_one_chain();
    checks_are_whole();
    chain_goes_on();
}
