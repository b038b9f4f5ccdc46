//! What the definitions of a tree that is laid out level by level say together, each the contract of a function that
//! does nothing.

ghost use Rattle.tree_layout.specs.TreeLaws.{BuiltTreesAreWhole, BuiltTreesAreApart};
ghost use Rattle.tree_layout.specs.HeldLaws.{HeadersNameSegments, TreesTakePlaces, DividedTreesAreHeld};
ghost use Rattle.tree_layout.specs.HeldLaws.{DividedTreesHaveRows};
ghost use Rattle.tree_layout.specs.DivisionLaws.{DivisionGivesLevels, CountsAreOfSizes, PointersAreSmall};
ghost use Rattle.tree_layout.specs.DivisionLaws.{CountsNeedNoNumbers, AlikeRecordsHaveOneSize, RecordsAreSmall};
ghost use Rattle.tree_layout.specs.Counting.{CountsAreCut};
ghost use Rattle.tree_layout.specs.PlaceLaws.{NumbersAreDifferent, PagesFillPlaces};
ghost use Rattle.tree_layout.specs.Sorted.{SortingRises};
ghost use Rattle.tree_layout.specs.Steps.{DivisionGoesOn, LevelsStand};
ghost use Rattle.tree_layout.specs.FullPages.{DividedIsDivision, HaveOneDivision, TreesAreDivided};

use index_page::laws::checks_are_an_index_page;
use tree_walk::laws::{checks_are_wholeness, levels_have_the_pages, rows_by_leaves};

/// A file that holds a tree has a whole tree by descent, whose rows are the leaf entries.
pub fn built_trees_are_whole()
    ensures { BuiltTreesAreWhole }
{
    checks_are_an_index_page();
    checks_are_wholeness();
    rows_by_leaves();
}

/// A file that holds the trees of some indexes has whole trees, no page of which comes twice, and names each of their
/// segments once.
pub fn built_trees_are_apart()
    ensures { BuiltTreesAreApart }
{
    built_trees_are_whole();
    levels_have_the_pages();
}

/// Entries whose keys rise are divided into the levels of a tree.
pub fn division_gives_levels()
    ensures { DivisionGivesLevels }
{}

/// How many pages each level has depends on the sizes of the parts alone.
pub fn counts_are_of_sizes()
    ensures { CountsAreOfSizes }
{}

/// How many pages each level has doesn't depend on the numbers of pages.
pub fn counts_need_no_numbers()
    ensures { CountsNeedNoNumbers }
{}

/// A record is as large as one whose parts have the same lengths.
pub fn alike_records_have_one_size()
    ensures { AlikeRecordsHaveOneSize }
{}

/// A pointer takes hardly more bytes than the key of its entry.
pub fn pointers_are_small()
    ensures { PointersAreSmall }
{}

/// A record takes hardly more bytes than its values.
pub fn records_are_small()
    ensures { RecordsAreSmall }
{}

/// The pages of trees have different numbers, where those of the segments have.
pub fn numbers_are_different()
    ensures { NumbersAreDifferent }
{}

/// The pages of a tree are those of its places in the segments of its index.
pub fn pages_fill_places()
    ensures { PagesFillPlaces }
{}

/// A file that holds the trees into which entries are divided holds trees with these entries.
pub fn divided_trees_are_held()
    ensures { DividedTreesAreHeld }
{
    division_gives_levels();
    counts_need_no_numbers();
    numbers_are_different();
}

/// The pages of a divided tree by descent are those of its places in the segments.
pub fn trees_take_places()
    ensures { TreesTakePlaces }
{
    built_trees_are_whole();
    levels_have_the_pages();
    division_gives_levels();
    counts_need_no_numbers();
    numbers_are_different();
}

/// The headers of a root tell its segments.
pub fn headers_name_segments()
    ensures { HeadersNameSegments }
{}

/// Entries whose keys differ have one order, in which the keys rise.
pub fn sorting_rises()
    ensures { SortingRises }
{}

/// Entries are divided one by one.
pub fn division_goes_on()
    ensures { DivisionGoesOn }
{}

/// The levels of a tree stand on each other, and no others do.
pub fn levels_stand()
    ensures { LevelsStand }
{}

/// The pages of a level are as full as they can be: each is closed only if the next entry doesn't fit. No other pages
/// of these entries are so.
pub fn pages_are_full()
    ensures divides { DividedIsDivision }
    ensures one { HaveOneDivision }
{}

/// The levels of a tree are divided so, each the pointers to the one below it, up to a root alone. No other levels are.
pub fn trees_are_divided()
    ensures { TreesAreDivided }
{
    levels_stand();
    division_gives_levels();
}

/// The trees into which the entries of some indexes are divided are whole where a file holds them, no page of them
/// comes twice, and they have these entries as their rows.
pub fn divided_trees_have_rows()
    ensures { DividedTreesHaveRows }
{
    built_trees_are_whole();
    built_trees_are_apart();
    divided_trees_are_held();
    trees_take_places();
}

/// The pages of the levels are counted by the sizes of records and pointers.
pub fn counts_are_cut()
    ensures { CountsAreCut }
{}
