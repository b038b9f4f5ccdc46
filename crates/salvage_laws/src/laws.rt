//! Laws of a salvage, each the contract of a function that does nothing.

ghost use Rattle.salvage_model.specs.Laws.{HasOneOutcome, SavedRowsStand};
ghost use Rattle.salvage_model.specs.Laws.{SoundFilesHaveOutcomes, SoundFilesLoseNothing};

use crate::rows::row_has_one_judgement;
use column_values::laws::spellings_are_unique;
use extent_map::laws::used_pages_are_of_extents;
use leaf_salvage::laws::{index_leaves_are_whole, page_has_one_verdict};
use offpage_chain::laws::{chain_goes_on, checks_are_whole, has_one_chain};
use salvage_model::laws::{whole_lines_are_lines, whole_rows_are_read};
use space_audit::laws::audit_is_soundness;
use table_check::laws::checks_are_validity;
use tree_walk::laws::rows_can_be_read;

/// Out of a sound file whose pages can all be fetched, and no other of whose indexes has the clustered one's id, each
/// row of the table is saved whole, once, and nothing else; nothing is lost.
pub fn sound_files_lose_nothing()
    ensures { SoundFilesLoseNothing }
{
    spellings_are_unique();
    used_pages_are_of_extents();
    audit_is_soundness();
    has_one_chain();
    checks_are_whole();
    chain_goes_on();
    rows_can_be_read();
    checks_are_validity();
    index_leaves_are_whole();
    page_has_one_verdict();
    whole_lines_are_lines();
    whole_rows_are_read();
}

/// Of a sound file there is a salvage: each page, each row and each value has what comes of it.
pub fn sound_files_have_outcomes()
    ensures { SoundFilesHaveOutcomes }
{
    used_pages_are_of_extents();
    audit_is_soundness();
    has_one_chain();
    checks_are_whole();
    chain_goes_on();
    rows_can_be_read();
    checks_are_validity();
    index_leaves_are_whole();
}

/// Each row that is saved is a record of the kind that is looked for, on a leaf that stands whole by itself, and none
/// is saved twice; if nothing of it is lost, its line is that of the values that are read of it.
pub fn saved_rows_stand()
    ensures { SavedRowsStand }
{
    whole_lines_are_lines();
    whole_rows_are_read();
}

/// A file, a table, a kind of records, an id and the pages that are missed have at most one list of outcomes.
pub fn salvage_has_one_outcome()
    ensures { HasOneOutcome }
{
    spellings_are_unique();
    page_has_one_verdict();
    row_has_one_judgement();
}
