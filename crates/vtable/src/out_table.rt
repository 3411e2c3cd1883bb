ghost use Rattle.std.specs.Prelude.{◌≡◌, ◌++◌, map, true, ℕ, List as Items, IsPermutation, IfOk, IfSome, OnOk};
ghost use Rattle.std.specs.List.{filter_map};
ghost use Rattle.std.specs.Option.{option_to_list};
ghost use Rattle.condition_sat.specs.Admitted.{IsAdmitted};
ghost use Rattle.vtable.specs.Answers.{IsAnswerAt};
ghost use Rattle.vtable.specs.TableForm.{HasTableForm, IsNormalOf, columns_are_distinct};
ghost use Rattle.vtable.specs.Passes.{IsDecision, row_staying, table_row};

use crate::columns::{decided_columns, staying_columns};
use crate::decision::{Decision, cut_row, decision_for};
use crate::group::{CutRow, grouped, in_order};
use crate::join::joined_rows;
use crate::table::{VColumn, VRow, VTable};
use condition_sat::Model;
use feature_expr::{List, Memory, fingerprint};
use std::alloc::Global;
use std::marker;

/// The rows, those with one condition together but for chance. Each condition is decided once then.
fn by_condition(rows: List<VRow>) -> Result<Vec<VRow>, Memory>
    ensures { IfOk result (λ sorted. IsPermutation rows sorted.items) }
{
    let mut rows = rows.into_vec();
    rows.sort_by_cached_key(|row| fingerprint(&row.cond))?;
    Ok(rows)
}

/// The rows that stay, each cut to the columns that stay.
#[tactic(auto, using(crate::proofs::PassLaws::kept_push))]
fn cut_rows(
    alloc: Global,
    model: &Model,
    columns: &[Option<VColumn>],
    rows: Vec<VRow>,
) -> Result<Vec<CutRow>, Memory>
    ensures { IfOk result (λ cut. map table_row cut.items ≡ filter_map (row_staying model.now columns.now) rows.items) }
{
    let mut cut = Vec::new(alloc);
    let mut decision = None;
    for row in rows {
        let decided = put_row(alloc, model, columns, decision, row, &mut cut)?;
        decision = Some(decided);
    }
    Ok(cut)
}

/// Puts what is left of a row behind the others, and answers what was decided of its condition.
fn put_row(
    alloc: Global,
    model: &Model,
    columns: &[Option<VColumn>],
    last: Option<Decision>,
    row: VRow,
    cut: &mut Vec<CutRow>,
) -> Result<Decision, Memory>
    requires { IfSome last (λ decision. IsDecision model.now columns.now decision) }
    ensures is { IfOk result (λ decision. IsDecision model.now columns.now decision) }
    ensures cut { OnOk result (map table_row cut.new.items ≡ map table_row cut.old.items ++ option_to_list (row_staying model.now columns.now row)) }
{
    let decision = decision_for(alloc, model, columns, last, &row.cond)?;
    let staying = cut_row(alloc, &decision, row)?;
    put_cut(cut, staying)?;
    Ok(decision)
}

fn put_cut(cut: &mut Vec<CutRow>, row: Option<VRow>) -> Result<(), Memory>
    ensures { OnOk result (map table_row cut.new.items ≡ map table_row cut.old.items ++ option_to_list row) }
{
    match row {
        Some(VRow { cells, cond }) => {
            let cells = cells.into_vec();
            cut.push(CutRow { cells, cond })?;
            Ok(())
        }
        None => Ok(()),
    }
}

/// A table in table form.
#[derive(Drop)]
pub struct OutTable {
    table: VTable,
}

impl marker::Model for OutTable {
    ghost use Rattle.std.specs.Coded.{codes};
    ghost use Rattle.vtable.specs.contracts.table.VTable as t;
    ghost use Rattle.vtable.specs.declared.table.VTable.{VTable};
    ghost use Rattle.vtable.specs.TableForm.{HasTableForm};

    ghost Value = { VTable };

    ghost coded = { Prim.hlevel (codes, t.the_row.coded) };

    ghost view = { λ out. out.table };

    ghost invariant = { λ out. HasTableForm out.table };
}

impl OutTable {
    pub fn table(&self) -> &VTable
        ensures table { result.now ≡ self.now }
        ensures form { HasTableForm self.now }
    {
        &self.table
    }
}

/// The table in table form. Each distinct condition of a row is decided once, and once with each column, but for rows
/// whose conditions agree in a fingerprint and differ.
pub fn normal(alloc: Global, model: &Model, table: VTable) -> Result<OutTable, Memory>
    requires distinct { columns_are_distinct table.columns ≡ true }
    requires answers { (c : Items ℕ) → IsAdmitted model.now c → IsAnswerAt c table }
    ensures { IfOk result (λ out. IsNormalOf model.now table out) }
{
    let table = made_normal(alloc, model, table)?;
    Ok(OutTable { table })
}

/// The same, as a plain table, by one pass after another. Of a table that isn't a well-formed answer nothing is said.
pub fn made_normal(alloc: Global, model: &Model, table: VTable) -> Result<VTable, Memory>
    ensures { IfOk result (λ after. columns_are_distinct table.columns ≡ true → ((c : Items ℕ) → IsAdmitted model.now c → IsAnswerAt c table) → IsNormalOf model.now table after) }
{
    let VTable { columns, rows } = table;
    let columns = decided_columns(alloc, model, columns)?;
    let rows = by_condition(rows)?;
    let rows = cut_rows(alloc, model, &columns, rows)?;
    let rows = in_order(rows)?;
    let groups = grouped(alloc, rows)?;
    let rows = joined_rows(alloc, model, groups)?;
    let columns = staying_columns(alloc, columns)?;
    Ok(VTable { columns, rows })
}
