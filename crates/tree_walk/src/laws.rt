//! What the definitions of a tree say together, each the contract of a function that does nothing.

ghost use Rattle.tree_walk.specs.Laws.{LinksAreDescent, KeysRiseOverLeaves, LeavesAreSound, RowsCanBeRead};
ghost use Rattle.tree_walk.specs.Laws.{ChecksGiveTree, ChecksAreWholeness, LevelsHaveThePages, RowsByLeaves};
ghost use Rattle.tree_walk.specs.Laws.{LevelsAreOfDescent};

use index_page::laws::{checks_are_an_index_page, page_has_one_chain};

/// Where the checks of a tree hold, its levels by next fields and its rows by leaves are those of the descent, and no
/// page comes twice in it.
pub fn links_are_the_descent()
    ensures { LinksAreDescent }
{}

/// The pages of each level are those of the descent, in its order, whatever the file.
pub fn levels_are_of_the_descent()
    ensures { LevelsAreOfDescent }
{}

/// The rows by leaves are those of the descent, whatever the file.
pub fn rows_by_leaves()
    ensures { RowsByLeaves }
{}

/// Each page comes as often on the levels of a tree as in the descent.
pub fn levels_have_the_pages()
    ensures { LevelsHaveThePages }
{}

/// Where the checks of a tree hold, the keys of its rows rise over all leaves, and not only on each.
pub fn keys_rise_over_leaves()
    ensures { KeysRiseOverLeaves }
{}

/// Where the checks of a tree hold, each of its rows is spelled, and ends on its page.
pub fn rows_can_be_read()
    ensures { RowsCanBeRead }
{}

/// Where the checks of a tree hold, each of its leaves is sound, and linked to the next.
pub fn leaves_are_sound()
    ensures { LeavesAreSound }
{}

/// Where the checks of a tree hold, it is a tree by descent: each page is an index page whose keys lie between the
/// separators of its parent.
pub fn checks_give_a_tree()
    ensures { ChecksGiveTree }
{
    checks_are_an_index_page();
    page_has_one_chain();
}

/// No check of a tree is broken exactly where it is a whole tree by descent.
pub fn checks_are_wholeness()
    ensures { ChecksAreWholeness }
{
    checks_are_an_index_page();
    page_has_one_chain();
}
