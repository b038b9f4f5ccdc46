//! The law that ties what is carved to what is saved.

ghost use Rattle.carve_laws.specs.Laws.{CarvedTablesLoseNothing};

use extent_map::laws::used_pages_are_of_extents;
use image_carve::laws::{carved_pages_stand, what_stood_is_carved};
use leaf_salvage::laws::index_leaves_are_whole;
use offpage_chain::laws::{chain_goes_on, checks_are_whole, has_one_chain};
use salvage_laws::{salvage_has_one_outcome, sound_files_have_outcomes, sound_files_lose_nothing};
use space_audit::laws::audit_is_soundness;
use table_check::laws::checks_are_validity;
use tree_walk::laws::rows_can_be_read;

/// Out of what was carved of a sound tablespace, each of whose used pages occurs in the image with no later version of
/// it, each row of the table is saved whole, once, and nothing else, though the pages that are free may be missing.
pub fn carved_tables_lose_nothing()
    ensures { CarvedTablesLoseNothing }
{
    used_pages_are_of_extents();
    what_stood_is_carved();
    carved_pages_stand();
    index_leaves_are_whole();
    has_one_chain();
    checks_are_whole();
    chain_goes_on();
    salvage_has_one_outcome();
    sound_files_have_outcomes();
    sound_files_lose_nothing();
    audit_is_soundness();
    checks_are_validity();
    rows_can_be_read();
}
