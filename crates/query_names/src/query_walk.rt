ghost use Rattle.std.specs.Prelude.{◌≡◌, IfOk, IfErr};
ghost use Rattle.query_meaning.specs.Names.{names_of};
ghost use Rattle.std.specs.Option.{option_copied};
ghost use Rattle.query_names.specs.NameSteps.{leaf_query};
ghost use Rattle.query_names.specs.Parts.{IsTooWide, said};

use crate::name_steps::{NameStep, taken_apart};
use crate::part::QueryNames;
use crate::part_steps::{empty_part, one_part, table_part, two_part};
use crate::refused::NamesRefused;
use crate::table_names::TableNames;
use std::alloc::Global;
use values::Name;
use vra_syntax::Query;

/// What the names of a query say, in branches that no variant takes too.
///
/// The parts come before their form and the left one before the right one, so a refusal shows the width of the first
/// part that has too many columns.
pub fn names_of<'a>(
    alloc: Global,
    tables: &TableNames<'a>,
    query: &'a Query,
) -> Result<QueryNames<'a>, NamesRefused>
    ensures ok { IfOk result (λ it. said it ≡ names_of tables.now.tables.now query.now) }
    ensures err { IfErr result (λ why. IsTooWide (names_of tables.now.tables.now query.now).too_wide why) }
{
    let (mut steps, leaf) = taken_apart(alloc, query)?;
    let mut names = leaf_part(alloc, tables, leaf)?;
    while let Some(step) = steps.pop() {
        names = match step {
            NameStep::One(form) => one_part(alloc, form, names)?,
            NameStep::Two(form, right) => {
                let right = names_of(alloc, tables, right)?;
                two_part(alloc, form, names, right)?
            }
        };
    }
    Ok(names)
}

/// What the innermost left side says: a table of this name, or the empty query.
#[tactic(auto, using(crate::proofs::NameStepLaws::names_leaf, crate::proofs::NameStepLaws::names_empty))]
fn leaf_part<'a>(
    alloc: Global,
    tables: &TableNames<'a>,
    leaf: Option<&'a Name>,
) -> Result<QueryNames<'a>, NamesRefused>
    ensures ok { IfOk result (λ it. said it ≡ names_of tables.now.tables.now (leaf_query (option_copied leaf.entry))) }
    ensures err { IfErr result (λ why. IsTooWide (names_of tables.now.tables.now (leaf_query (option_copied leaf.entry))).too_wide why) }
{
    match leaf {
        Some(name) => {
            let names = table_part(alloc, tables, name)?;
            Ok(names)
        }
        None => Ok(empty_part(alloc)),
    }
}
