//! All rules of a tablespace against a schema, in order.

ghost use Rattle.std.specs.Prelude.{◌≡◌, IfOk, ◌+◌, ◌≤◌, length};
ghost use Rattle.page_source.specs.Checks.{Answers};
ghost use Rattle.page_source.specs.Calls.{OfFile, StopsOver};
ghost use Rattle.table_check.specs.First.{First, IsChecked, IsCheckedTable, HasCounts, TakesSteps, LeavesSteps};
ghost use Rattle.table_check.specs.First.{LeavesAllSteps, AsksAtMost, check_steps};
ghost use Rattle.table_check.specs.Trees.{index_count};
ghost use Rattle.table_check.specs.Valid.{TellsValid};
ghost use Rattle.table_check.specs.Whole.{IsCheckedWhole};

use crate::laws::{checks_are_validity, first_has_one_answer};
use crate::table::{Checked, Table, Whole};
use crate::trees::check_trees;
use crate::unreached::count_unreached;
use crate::values::check_values;
use page_source::{PageSource, Steps, Stop};
use schema_text::Schema;
use space_audit::audit;
use std::alloc::Global;
use std::sync::ledger::Ledger;

/// Checks a tablespace by the rules 1 to 51. `Broken` names the first broken one and its page; of a source that doesn't
/// tell its content, as one that changes, nothing is said there. `Source` comes where the file's count of faults rose,
/// `Memory` where memory ran out.
pub fn check<S: PageSource, L: Ledger>(
    alloc: Global,
    source: &mut S,
    schema: &Schema,
    steps: &mut Steps<L>,
) -> Result<Checked, Stop>
    ensures exact { OfFile S.PageSource source.old (λ file. Answers result (First file schema.now)) }
    ensures checked { IfOk result (λ checked. OfFile S.PageSource source.old (λ file.
        IsChecked file schema.now checked)) }
    ensures valid { OfFile S.PageSource source.old (λ file. TellsValid result file schema.now) }
    ensures steps { TakesSteps S.PageSource source.old check_steps steps.old steps.new }
    ensures fetches { AsksAtMost S.PageSource source.old source.new check_steps }
    ensures sized { IfOk result (λ checked. steps.new ≤ steps.old + check_steps checked.pages) }
    ensures over { StopsOver S.PageSource source.old source.new steps.old steps.new result }
{
    first_has_one_answer();
    checks_are_validity();
    Ok(check_table(alloc, source, schema, steps)?.checked)
}

/// Checks a tablespace as `check` does, and answers also what reading its rows needs: where the rows of the clustered
/// tree begin, and how many pages their values go on in.
pub fn check_table<S: PageSource, L: Ledger>(
    alloc: Global,
    source: &mut S,
    schema: &Schema,
    steps: &mut Steps<L>,
) -> Result<Table, Stop>
    ensures exact { OfFile S.PageSource source.old (λ file. Answers result (First file schema.now)) }
    ensures table { IfOk result (λ table. OfFile S.PageSource source.old (λ file.
        IsCheckedTable file schema.now table)) }
    ensures counts { IfOk result (λ table. HasCounts table) }
    ensures steps { TakesSteps S.PageSource source.old check_steps steps.old steps.new }
    ensures leaves { IfOk result (λ table. LeavesSteps steps.old steps.new table) }
    ensures over { StopsOver S.PageSource source.old source.new steps.old steps.new result }
{
    Ok(check_whole(alloc, source, schema, steps)?.table)
}

/// Checks a tablespace as `check` does, and answers also what reading the rows of all indexes needs: the ends of each
/// tree.
pub fn check_whole<S: PageSource, L: Ledger>(
    alloc: Global,
    source: &mut S,
    schema: &Schema,
    steps: &mut Steps<L>,
) -> Result<Whole, Stop>
    ensures exact { OfFile S.PageSource source.old (λ file. Answers result (First file schema.now)) }
    ensures whole { IfOk result (λ whole. OfFile S.PageSource source.old (λ file.
        IsCheckedWhole file schema.now whole)) }
    ensures count { IfOk result (λ whole. length whole.ends ≡ index_count schema.now) }
    ensures counts { IfOk result (λ whole. HasCounts whole.table) }
    ensures steps { TakesSteps S.PageSource source.old check_steps steps.old steps.new }
    ensures leaves { IfOk result (λ whole. LeavesAllSteps steps.old steps.new whole) }
    ensures over { StopsOver S.PageSource source.old source.new steps.old steps.new result }
{
    let space = audit(alloc, source, schema.flags(), steps)?;
    let pages = space.size();
    let mut trees = check_trees(alloc, source, &space, schema, steps)?;
    let clustered = trees.clustered;
    let chain_pages = check_values(
        alloc,
        source,
        &space,
        schema,
        &clustered,
        &mut trees.marks,
        steps,
    )?;
    let unreached = count_unreached(&space, &trees.leaf_segments, &trees.marks)?;
    let checked = Checked {
        pages,
        used: space.used_pages(),
        rows: clustered.live,
        deleted: clustered.deleted,
        unreached,
    };
    let table = Table {
        checked,
        space: space.space_id(),
        clustered,
        chain_pages,
    };
    Ok(Whole {
        table,
        ends: trees.ends,
    })
}
