//! What the definitions of the rows of a built tablespace say together, each the contract of a function that does
//! nothing.

ghost use Rattle.row_layout.specs.Laws.{RowsAreFitted, RowsFitOnce, FittedRowsAreRows, ValuesFit};
ghost use Rattle.row_layout.specs.Laws.{HeldRowsAreRows, HeldValuesAreSound, NothingIsLeftOver};
ghost use Rattle.row_layout.specs.EntryLaws.{RowsAreShort, EntriesAreShort, EntriesHaveKeys, RowEntriesRise};
ghost use Rattle.row_layout.specs.EntryLaws.{EntriesDiffer, EntriesAreAlike, EntriesCanDivide};

use column_values::laws::spellings_are_unique;
use offpage_chain::laws::has_one_chain;
use schema_text::laws::lists_are_of_one_index;
use tree_layout::laws::{
    alike_records_have_one_size, pointers_are_small, records_are_small, sorting_rises,
};
use tree_walk::laws::levels_have_the_pages;

/// Of a row that is too long the longest columns that may go do so, until it isn't too long or none may go.
pub fn rows_are_fitted()
    ensures { RowsAreFitted }
{}

/// A row that is too long is fitted in one way.
pub fn rows_fit_once()
    ensures { RowsFitOnce }
{}

/// The fields of a row have the values that they had before, and its record isn't too long.
pub fn fitted_rows_are_rows()
    ensures { FittedRowsAreRows }
{}

/// A value of a type has at most so many bytes as its type may.
pub fn values_fit()
    ensures { ValuesFit }
{}

/// A file that holds the rows of a table has these rows.
pub fn held_rows_are_rows()
    ensures { HeldRowsAreRows }
{
    has_one_chain();
    spellings_are_unique();
}

/// The values of a file that holds the rows are sound if their pages are their own.
pub fn held_values_are_sound()
    ensures { HeldValuesAreSound }
{
    has_one_chain();
    spellings_are_unique();
}

/// Nothing is left over in a file that holds the rows if no other page is used.
pub fn nothing_is_left_over()
    ensures { NothingIsLeftOver }
{
    has_one_chain();
    spellings_are_unique();
    levels_have_the_pages();
}

/// The records of rows are short enough, whatever the numbers of pages are.
pub fn rows_are_short()
    ensures { RowsAreShort }
{
    spellings_are_unique();
    pointers_are_small();
    alike_records_have_one_size();
    lists_are_of_one_index();
}

/// The entries of the other indexes are short enough, whatever the numbers of pages are.
pub fn entries_are_short()
    ensures { EntriesAreShort }
{
    spellings_are_unique();
    pointers_are_small();
    records_are_small();
    lists_are_of_one_index();
}

/// The records of rows have the keys of the rows.
pub fn entries_have_keys()
    ensures { EntriesHaveKeys }
{
    spellings_are_unique();
}

/// The records of rows rise if the rows do.
pub fn row_entries_rise()
    ensures { RowEntriesRise }
{
    spellings_are_unique();
}

/// The entries of the other indexes have keys of their own.
pub fn entries_differ()
    ensures { EntriesDiffer }
{
    spellings_are_unique();
}

/// Whatever the numbers of pages are, the parts of the entries have the same lengths.
pub fn entries_are_alike()
    ensures { EntriesAreAlike }
{}

/// The entries of each index can be divided into the levels of a tree.
pub fn entries_can_divide()
    ensures { EntriesCanDivide }
{
    spellings_are_unique();
    pointers_are_small();
    records_are_small();
    alike_records_have_one_size();
    lists_are_of_one_index();
    sorting_rises();
}
