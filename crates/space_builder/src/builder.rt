//! Builds a tablespace from a rows text.

ghost use Rattle.std.specs.Prelude.{◌≡◌, Err};
ghost use Rattle.page_source.specs.Objects.{IsFresh};
ghost use Rattle.schema_text.specs.Grammar.{IsTable};
ghost use Rattle.space_builder.specs.build.RootOrder.{RootOrderChecks};
ghost use Rattle.space_builder.specs.build.Build.{Builds, BuildsWithCause, ReadsText, IsUncalledOrSized};
ghost use Rattle.space_builder.specs.build.Outcome.{LeavesStore};

use crate::built::{BuildStop, Built};
use crate::plan::{plan_space, row_orders};
use crate::space::Space;
use page_source::{ByteSource, PageStore, Steps};
use row_store::read_rows;
use schema_text::{FIRST_ROOT, Schema};
use std::alloc::Global;
use std::sync::ledger::Ledger;

/// The line of the first root that isn't the page behind the root before it.
fn misplaced_root(schema: &Schema) -> Option<u32>
    ensures roots { RootOrderChecks schema.now result }
    ensures table { IsTable schema.now }
{
    let indexes = schema.indexes();
    for j in 0..indexes.len() {
        if indexes[j].root != FIRST_ROOT + j as u32 {
            return Some(indexes[j].line);
        }
    }
    None
}

/// Builds the tablespace of a table from the lines of its rows, which are in the order of their clustered keys. The
/// store is sized, then gets all pages, page 0 last.
pub fn build<R: ByteSource, T: PageStore, L: Ledger>(
    alloc: Global,
    rows: &mut R,
    schema: &Schema,
    store: &mut T,
    steps: &mut Steps<L>,
) -> Result<Built, BuildStop>
    requires { IsFresh (T.told store.old) }
    ensures built { Builds schema.now (R.left rows.old) result (T.told store.old) (T.told store.new) }
    ensures read { ReadsText R.left rows.old rows.new result }
    ensures cause { BuildsWithCause (R.faults rows.old) (R.faults rows.new) (T.faults store.old) (T.faults store.new)
        result }

    // The store isn't called before the last line is read and the layout fits. At `Memory` it wasn't called, or it was
    // sized.
    ensures untouched { LeavesStore result → store.new ≡ store.old }
    ensures memory { result ≡ Err BuildStop.Memory
        → IsUncalledOrSized T.told schema.now (R.left rows.old) store.old store.new }

    // No page is fetched.
    ensures steps { steps.new ≡ steps.old }
{
    if let Some(line) = misplaced_root(schema) {
        return Err(BuildStop::RootPlace { line });
    }
    let stored = read_rows(alloc, rows, schema)?;
    let orders = row_orders(alloc, schema, &stored)?;
    let plan = plan_space(alloc, schema, &stored, &orders)?;
    let space = Space {
        schema,
        rows: &stored,
        orders: &orders,
        plan: &plan,
    };
    space.put(alloc, store)?;
    Ok(Built {
        pages: space.pages(),
        rows: stored.count() as u64,
    })
}
