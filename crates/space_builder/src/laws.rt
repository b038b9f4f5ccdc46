//! A built tablespace is sound, and holds the rows that it was built of: each law the contract of a function that does
//! nothing.

ghost use Rattle.space_builder.specs.layout.Laws.{BuildsSpace, BuildsTrees, BuildsRows, BuildsValues};
ghost use Rattle.space_builder.specs.layout.Laws.{BuildsNoLeftOvers, BuildsValid};
ghost use Rattle.space_builder.specs.layout.LowerLaws.{LowerLaws};
ghost use Rattle.space_builder.specs.layout.TreeSpot.{PagesArePacked};
ghost use Rattle.space_builder.specs.layout.ValuePage.{PagesAreOfChains};
ghost use Rattle.space_builder.specs.calls.StoredRows.{PicksEntries, SamePagesGiveRecords};
ghost use Rattle.space_builder.specs.calls.StoredRows.{StoredRowsGiveEntries};
ghost use Rattle.space_builder.specs.build.Laws.{GoodTextsCanBuild, GoodTextsBuildValid, GoodTextsAreOfRows};
ghost use Rattle.space_builder.specs.build.Outcome.{RootsHaveOneAnswer, BuildHasOneOutcome, BuildHasAnOutcome};

use column_values::laws::spellings_are_unique;
use fil_frame::laws::sealed_pages_are_whole;
use offpage_chain::laws::part_pages_are_read;
use page_packer::laws::{a_page_has_its_numbers, a_page_holds_its_entries, sealing_keeps_the_body};
use row_layout::laws::{
    entries_are_alike, entries_can_divide, entries_differ, fitted_rows_are_rows,
    held_rows_are_rows, held_values_are_sound, nothing_is_left_over, values_fit,
};
use row_text::laws::lines_are_unique;
use space_layout::laws::{
    file_holds_space, holds_its_segments, holds_sound_space, indexes_have_sizes,
    numbered_pages_are_found, numbered_pages_are_held, numbers_differ, values_have_places,
};
use tree_layout::laws::{
    counts_are_of_sizes, divided_trees_have_rows, division_gives_levels, headers_name_segments,
    numbers_are_different, pages_fill_places, sorting_rises,
};

/// What the crates below say of pages, spaces, trees and rows.
pub(crate) fn laws_below()
    ensures { LowerLaws }
{
    a_page_holds_its_entries();
    a_page_has_its_numbers();
    sealed_pages_are_whole();
    sealing_keeps_the_body();
    part_pages_are_read();
    indexes_have_sizes();
    numbers_differ();
    values_have_places();
    numbered_pages_are_held();
    numbered_pages_are_found();
    file_holds_space();
    holds_sound_space();
    holds_its_segments();
    division_gives_levels();
    counts_are_of_sizes();
    numbers_are_different();
    pages_fill_places();
    headers_name_segments();
    divided_trees_have_rows();
    entries_can_divide();
    entries_are_alike();
    held_rows_are_rows();
    held_values_are_sound();
    nothing_is_left_over();
}

/// The space of a built tablespace is sound.
pub fn builds_a_sound_space()
    ensures { BuildsSpace }
{
    laws_below();
}

/// A built tablespace has the trees of its table.
pub fn builds_the_trees()
    ensures { BuildsTrees }
{
    laws_below();
}

/// A built tablespace holds the rows that it was built of.
pub fn builds_the_rows()
    ensures { BuildsRows }
{
    laws_below();
}

/// The values of a built tablespace are sound.
pub fn builds_sound_values()
    ensures { BuildsValues }
{
    laws_below();
}

/// Nothing is left over in a built tablespace.
pub fn builds_no_left_overs()
    ensures { BuildsNoLeftOvers }
{
    laws_below();
}

/// A built tablespace is valid, and holds the rows that it was built of.
pub fn builds_a_valid_tablespace()
    ensures { BuildsValid }
{
    builds_a_sound_space();
    builds_the_trees();
    builds_the_rows();
    builds_sound_values();
    builds_no_left_overs();
}

/// Of a text whose lines are good a tablespace can be built, if it fits.
pub fn good_texts_can_be_built()
    ensures { GoodTextsCanBuild }
{}

/// What is built of a text whose lines are good is valid, and holds the rows of the text.
pub fn good_texts_build_a_valid_tablespace()
    ensures { GoodTextsBuildValid }
{
    good_texts_can_be_built();
    builds_a_valid_tablespace();
}

/// The lines of the rows of a text are the text.
pub fn good_texts_are_of_rows()
    ensures { GoodTextsAreOfRows }
{}

/// A table and a text have one outcome at the most.
pub fn a_build_has_one_outcome()
    ensures roots { RootsHaveOneAnswer }
    ensures outcome { BuildHasOneOutcome }
{
    lines_are_unique();
}

/// A table and a text have an outcome.
pub fn a_build_has_an_outcome()
    ensures { BuildHasAnOutcome }
{
    spellings_are_unique();
    values_fit();
    lines_are_unique();
}

/// The packed entries of a page of a tree, at its spot, are that page of the layout.
pub fn pages_are_packed()
    ensures { PagesArePacked }
{}

/// The pages of a chain that is written are those of the layout.
pub fn pages_are_of_chains()
    ensures { PagesAreOfChains }
{}

/// The fields of the rows, picked in the order of an index, are its entries.
pub fn picked_entries_are_sorted()
    ensures { PicksEntries }
{
    fitted_rows_are_rows();
    entries_differ();
    sorting_rises();
}

/// The records of rows are the same, whatever pages are named for fields that stay on the page.
pub fn same_pages_give_records()
    ensures { SamePagesGiveRecords }
{}

/// The records of the rows and the entries of all other indexes are the entries of the layout.
pub fn stored_rows_give_entries()
    ensures { StoredRowsGiveEntries }
{
    picked_entries_are_sorted();
}
