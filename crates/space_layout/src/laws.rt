//! What the definitions of a space say together, each the contract of a function that does nothing.

ghost use Rattle.space_layout.specs.Laws.{HoldsSoundSpace, HoldsItsSegments, NumbersDiffer, FileHoldsSpace};
ghost use Rattle.space_layout.specs.Laws.{IndexesHaveSizes, IndexesHaveShape, HeadPagesAreWhole, NumberedPagesAreHeld};
ghost use Rattle.space_layout.specs.Laws.{NumberedPagesAreFound, ValuesHavePlaces};
ghost use Rattle.space_layout.specs.LowerLaws.{LowerLaws};

use extent_map::laws::{bits_are_used_pages, used_pages_are_of_extents, written_extents_are_read};
use fil_frame::laws::sealed_pages_are_whole;
use inode_segments::laws::written_inodes_are_read;
use space_audit::laws::fragment_claims_are_enough;
use space_header::laws::written_fields_are_read;

/// What the crates below say of pages and of who uses them.
fn laws_below()
    ensures { LowerLaws }
{
    sealed_pages_are_whole();
    written_fields_are_read();
    written_extents_are_read();
    written_inodes_are_read();
    used_pages_are_of_extents();
    bits_are_used_pages();
    fragment_claims_are_enough();
}

/// A file that holds the pages of a built tablespace is a sound space.
pub fn holds_sound_space()
    ensures { HoldsSoundSpace }
{
    laws_below();
}

/// The segments of a file that holds the pages of a built tablespace have the pages that they are to have, and no
/// others.
pub fn holds_its_segments()
    ensures { HoldsItsSegments }
{
    laws_below();
}

/// Each page has a number of its own.
pub fn numbers_differ()
    ensures { NumbersDiffer }
{}

/// The file of a map that holds the pages of a built tablespace holds them.
pub fn file_holds_space()
    ensures { FileHoldsSpace }
{
    laws_below();
}

/// Indexes have two segments each, whose sizes have a shape.
pub fn indexes_have_sizes()
    ensures sizes { IndexesHaveSizes }
    ensures shape { IndexesHaveShape }
{}

/// The first three pages have all their bytes.
pub fn head_pages_are_whole()
    ensures { HeadPagesAreWhole }
{
    laws_below();
}

/// The layout's map holds the pages of the space.
pub fn numbered_pages_are_held()
    ensures { NumberedPagesAreHeld }
{
    laws_below();
}

/// At each number of a page of the segments the map has the page that has this number in the list.
pub fn numbered_pages_are_found()
    ensures { NumberedPagesAreFound }
{}

/// Each part of a long value has a place of its own.
pub fn values_have_places()
    ensures { ValuesHavePlaces }
{}
