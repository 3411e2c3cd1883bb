//! Queries over a catalogue's opening rows: their plan's table, and their answer in table form.

ghost use Rattle.std.specs.Prelude.{◌≡◌, ◌<◌, [], true, ℕ, List as Items, IfOk, IfSome};
ghost use Rattle.condition_sat.specs.Admitted.{IsAdmitted};
ghost use Rattle.plan_exec_tests.specs.Opened.{IsOpened};
ghost use Rattle.query_answers.specs.Answering.{CanAnswer};
ghost use Rattle.query_meaning.specs.Typing.{IsTyped};
ghost use Rattle.vra_syntax.specs.Parameters.{param_in_query};
ghost use Rattle.vschema.specs.Formed.{IsFormed};
ghost use Rattle.vschema.specs.Gaps.{have_all_values};

use asked_conditions::Questions;
use condition_sat::Model;
use plan_exec::{Rows, run};
use query_answers::{answer_query, opening_rows};
use query_meaning::TypeRefused;
use query_names::{TableNames, Typed};
use query_typing::type_query;
use std::alloc::Global;
use std::marker::Brand;
use std::sync::ledger::{Blank, Ledger};
use steps::Steps;
use values::{List, Memory};
use vra_syntax::Query;
use vra_types::check_catalog;
use vschema::{Catalog, OpeningRow, parse_catalog};
use vtable::{OutTable, VTable};

/// A catalogue, its opening rows, its model, and the rows as plans are run over them.
#[derive(Drop)]
pub struct Opened {
    pub catalog: Catalog,
    pub rows: List<OpeningRow>,
    pub model: Model,
    pub stored: Rows,
}

/// Nothing, where the text is no catalogue that passes its check, or memory runs out.
pub fn opening_of(alloc: Global, text: &[u8]) -> Option<Opened>
    ensures { IfSome result IsOpened }
{
    let Ok((catalog, rows)) = parse_catalog(alloc, text) else {
        return None;
    };
    let Ok(model) = check_catalog(alloc, &catalog, &rows) else {
        return None;
    };
    let Ok(opened) = with_rows(alloc, catalog, rows, model) else {
        return None;
    };
    Some(opened)
}

fn with_rows(
    alloc: Global,
    catalog: Catalog,
    rows: List<OpeningRow>,
    model: Model,
) -> Result<Opened, Memory>
    requires model { model ≡ catalog.model }
    requires formed { IsFormed catalog rows }
    requires filled { (c : Items ℕ) → IsAdmitted catalog.model c → have_all_values c catalog.tables rows ≡ true }
    ensures { IfOk result IsOpened }
{
    let stored = opening_rows(alloc, &catalog, rows.as_slice())?;
    Ok(Opened {
        catalog,
        rows,
        model,
        stored,
    })
}

/// A query without parameters with its type, by which it can be answered.
pub fn typed(alloc: Global, opened: &Opened, query: &Query) -> Result<Typed, TypeRefused>
    requires opened { IsOpened opened.now }
    requires free { param_in_query query.now ≡ 0 }
    ensures { IfOk result (λ it. CanAnswer opened.now.model opened.now.stored.tables it) }
{
    let typed = with_type(alloc, opened, query)?;
    Ok(typed)
}

fn with_type(alloc: Global, opened: &Opened, query: &Query) -> Result<Typed, TypeRefused>
    requires { IsOpened opened.now }
    ensures { IfOk result (λ it. IsTyped opened.now.catalog.model [] opened.now.catalog.tables query.now it.columns it.plan) }
{
    let Ok(tables) = TableNames::new(alloc, opened.catalog.tables.as_slice()) else {
        return Err(TypeRefused::Memory);
    };
    let mut questions = Questions::new(alloc, &opened.model);
    type_query(alloc, &mut questions, &tables, query, &[])
}

/// The table that the query's plan makes.
pub fn made(alloc: Global, opened: &Opened, typed: &Typed) -> Result<VTable, Memory>
    requires { CanAnswer opened.now.model opened.now.stored.tables typed.now }
{
    made_counted::<Brand>(alloc, opened, typed, Blank::new(1))
}

fn made_counted<L: Ledger>(
    alloc: Global,
    opened: &Opened,
    typed: &Typed,
    blank: Blank,
) -> Result<VTable, Memory>
    requires answerable { CanAnswer opened.now.model opened.now.stored.tables typed.now }
    requires name { blank.name ≡ L.name }
    requires parts { blank.parts ≡ L.parts }
    requires some { 0 < blank.parts }
{
    let mut steps: Steps<L> = Steps::new(blank);
    run(
        alloc,
        typed.plan(),
        &opened.model,
        &opened.stored,
        &mut steps,
    )
}

/// The answer to the query in table form.
pub fn answer(alloc: Global, opened: &Opened, typed: &Typed) -> Result<OutTable, Memory>
    requires { CanAnswer opened.now.model opened.now.stored.tables typed.now }
{
    answer_counted::<Brand>(alloc, opened, typed, Blank::new(1))
}

fn answer_counted<L: Ledger>(
    alloc: Global,
    opened: &Opened,
    typed: &Typed,
    blank: Blank,
) -> Result<OutTable, Memory>
    requires answerable { CanAnswer opened.now.model opened.now.stored.tables typed.now }
    requires name { blank.name ≡ L.name }
    requires parts { blank.parts ≡ L.parts }
    requires some { 0 < blank.parts }
{
    let mut steps: Steps<L> = Steps::new(blank);
    answer_query(alloc, &opened.model, typed, &opened.stored, &mut steps)
}
