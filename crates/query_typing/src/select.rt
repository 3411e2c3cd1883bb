ghost use Rattle.std.specs.Prelude.{◌≡◌, ◌++◌, ℕ, map, List as Numbers, IfErr, IfOk, OnOk};
ghost use Rattle.std.specs.List.{flat_map};
ghost use Rattle.conditional_columns.specs.ColumnLists.{given_under, settled, with_name};
ghost use Rattle.conditional_columns.specs.FormLists.{item_columns, kept_list};
ghost use Rattle.feature_expr.specs.declared.expr.Expr as e;
ghost use Rattle.query_meaning.specs.Typing.{columns_at, headings};
ghost use Rattle.query_meaning.specs.PlainTypes.{absent_in_items, asked, twice, where_any};
ghost use Rattle.query_typing.specs.Bounded.{alias_made, items_made};
ghost use Rattle.query_typing.specs.Faults.{NoCase, RefusesCase};
ghost use Rattle.query_typing.specs.Parts.{PartFails, PartIs};
ghost use Rattle.relational_algebra.specs.Items.{given, kept_by, picked};
ghost use Rattle.vra_syntax.specs.declared.items.Items.TheVariants as listed;
ghost use Rattle.query_typing.specs.Forms.{alias_part, select_part};

use crate::ask_where::{ask_listed, ask_over, ask_twice};
use crate::refused::CaseRefused;
use asked_conditions::Questions;
use conditional_columns::{add_named, behind, settle};
use feature_expr::{Expr, List};
use query_meaning::TypedColumn;
use std::alloc::Global;
use values::{ColName, Kind, Memory, Name};
use vra_syntax::{Cond, Item, Items};

/// The columns of a select over its source's.
pub fn select_columns(
    alloc: Global,
    questions: &mut Questions<'_>,
    kinds: &[Kind],
    reach: &Expr,
    source: List<TypedColumn>,
    items: &Items,
    cond: &Cond,
) -> Result<List<TypedColumn>, CaseRefused>
    ensures same { questions.new ≡ questions.old }
    ensures ok { IfOk result (PartIs questions.old reach.now (select_part kinds.now items.now cond.now source)) }
    ensures made { IfOk result (λ it. it ≡ items_made items.now source) }
    ensures err { IfErr result (PartFails questions.old reach.now (select_part kinds.now items.now cond.now source)) }
{
    match items {
        Items::All => {
            let columns = select_all(alloc, questions, kinds, reach, source, cond)?;
            Ok(columns)
        }
        Items::Listed(items) => {
            let items = items.as_slice();
            let columns = select_listed(alloc, questions, kinds, reach, source, items, cond)?;
            Ok(columns)
        }
    }
}

fn select_all(
    alloc: Global,
    questions: &mut Questions<'_>,
    kinds: &[Kind],
    reach: &Expr,
    source: List<TypedColumn>,
    cond: &Cond,
) -> Result<List<TypedColumn>, CaseRefused>
    ensures same { questions.new ≡ questions.old }
    ensures ok { IfOk result (PartIs questions.old reach.now (select_part kinds.now listed.All cond.now source)) }
    ensures made { IfOk result (λ it. it ≡ source) }
    ensures err { IfErr result (PartFails questions.old reach.now (select_part kinds.now listed.All cond.now source)) }
{
    ask_over(alloc, questions, kinds, reach, source.as_slice(), cond)?;
    Ok(source)
}

fn select_listed(
    alloc: Global,
    questions: &mut Questions<'_>,
    kinds: &[Kind],
    reach: &Expr,
    source: List<TypedColumn>,
    items: &[Item],
    cond: &Cond,
) -> Result<List<TypedColumn>, CaseRefused>
    ensures same { questions.new ≡ questions.old }
    ensures ok { IfOk result (PartIs questions.old reach.now (select_part kinds.now (listed.Listed items.now) cond.now source)) }
    ensures made { IfOk result (λ it. it ≡ settled (kept_list source items.now)) }
    ensures err { IfErr result (PartFails questions.old reach.now (select_part kinds.now (listed.Listed items.now) cond.now source)) }
{
    let kept = keep_columns(alloc, source.as_slice(), items)?;
    ask_kept(alloc, questions, kinds, reach, &source, items, &kept, cond)?;
    let columns = settle(alloc, kept)?;
    Ok(columns)
}

fn ask_kept(
    alloc: Global,
    questions: &mut Questions<'_>,
    kinds: &[Kind],
    reach: &Expr,
    source: &List<TypedColumn>,
    items: &[Item],
    kept: &List<TypedColumn>,
    cond: &Cond,
) -> Result<(), CaseRefused>
    ensures same { questions.new ≡ questions.old }
    ensures ok { OnOk result (NoCase questions.old reach.now (λ c. where_any (columns_at c source.now) (absent_in_items c (listed.Listed items.now) (columns_at c source.now) ++ twice (columns_at c kept.now) ++ asked c kinds.now cond.now (columns_at c source.now)))) }
    ensures err { IfErr result (RefusesCase questions.old reach.now (λ c. where_any (columns_at c source.now) (absent_in_items c (listed.Listed items.now) (columns_at c source.now) ++ twice (columns_at c kept.now) ++ asked c kinds.now cond.now (columns_at c source.now)))) }
{
    let columns = source.as_slice();
    let kept = kept.as_slice();
    ask_listed(alloc, questions, kinds, reach, columns, items, kept, cond)?;
    Ok(())
}

/// What the items keep, with repeats.
fn keep_columns(
    alloc: Global,
    columns: &[TypedColumn],
    items: &[Item],
) -> Result<List<TypedColumn>, Memory>
    ensures exact { IfOk result (λ it. it ≡ kept_list columns.now items.now) }
    ensures there { IfOk result (λ it. (c : Numbers ℕ) → columns_at c it ≡ flat_map (kept_by c (columns_at c columns.now)) items.now) }
    ensures headings { IfOk result (λ it. headings it ≡ flat_map (picked (headings columns.now)) items.now) }
{
    let mut kept = Vec::new(alloc);
    for item in items {
        keep_item(alloc, columns, item, &mut kept)?;
    }
    Ok(List::from_vec(kept))
}

fn keep_item(
    alloc: Global,
    columns: &[TypedColumn],
    item: &Item,
    kept: &mut Vec<TypedColumn>,
) -> Result<(), Memory>
    ensures exact { OnOk result (kept.new.items ≡ kept.old.items ++ item_columns columns.now item.now) }
    ensures there { OnOk result ((c : Numbers ℕ) → columns_at c kept.new.items ≡ columns_at c kept.old.items ++ kept_by c (columns_at c columns.now) item.now) }
    ensures headings { OnOk result (headings kept.new.items ≡ headings kept.old.items ++ picked (headings columns.now) item.now) }
{
    match &item.cond {
        Some(when) => add_named(alloc, when, &item.column, given(item), columns, kept),
        None => keep_always(alloc, columns, item, kept),
    }
}

#[tactic(auto, using(crate::proofs::Connectives::holds_always))]
fn keep_always(
    alloc: Global,
    columns: &[TypedColumn],
    item: &Item,
    kept: &mut Vec<TypedColumn>,
) -> Result<(), Memory>
    ensures exact { OnOk result (kept.new.items ≡ kept.old.items ++ map (given_under (given item.now) e.True) (with_name item.now.column columns.now)) }
    ensures there { OnOk result ((c : Numbers ℕ) → columns_at c kept.new.items ≡ columns_at c kept.old.items ++ picked (columns_at c columns.now) item.now) }
    ensures headings { OnOk result (headings kept.new.items ≡ headings kept.old.items ++ picked (headings columns.now) item.now) }
{
    let always = Expr::True;
    add_named(alloc, &always, &item.column, given(item), columns, kept)?;
    Ok(())
}

/// The name that an item gives.
fn given(item: &Item) -> &ColName
    ensures { result.now ≡ given item.now }
{
    match &item.rename {
        Some(name) => name,
        None => &item.column,
    }
}

/// The columns of an alias over its source's.
pub fn alias_columns(
    alloc: Global,
    questions: &mut Questions<'_>,
    kinds: &[Kind],
    reach: &Expr,
    source: List<TypedColumn>,
    alias: &Name,
) -> Result<List<TypedColumn>, CaseRefused>
    ensures same { questions.new ≡ questions.old }
    ensures ok { IfOk result (PartIs questions.old reach.now (alias_part kinds.now alias.now source)) }
    ensures made { IfOk result (λ it. it ≡ alias_made alias.now source) }
    ensures err { IfErr result (PartFails questions.old reach.now (alias_part kinds.now alias.now source)) }
{
    let all = behind(alloc, alias, source.as_slice())?;
    let all = List::from_vec(all);
    ask_twice(alloc, questions, reach, all.as_slice())?;
    let columns = settle(alloc, all)?;
    Ok(columns)
}
