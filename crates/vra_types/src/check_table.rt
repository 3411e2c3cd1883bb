ghost use Rattle.std.specs.Prelude.{◌≡◌, ℕ, not as negation, [], ◌∷◌, map, List as Items, IfOk, IfErr, IfSome, IfNone, OnOk};
ghost use Rattle.std.specs.List.{list_any};
ghost use Rattle.condition_sat.specs.Asked.{all_met};
ghost use Rattle.vschema.specs.Gaps.{is_column_there};
ghost use Rattle.vra_types.specs.Check.{TableGap, IsGapAt, IsNowhere, AreNowhere, RefusesGaps};

use crate::refused::CheckRefused;
use condition_sat::{Asked, Model};
use feature_expr::{Config, Memory, TryCopy};
use std::alloc::Global;
use vschema::{Column, Table};

/// Looks for the first table that is there without a column in an admitted variant.
pub fn check_tables(alloc: Global, model: &Model, tables: &[Table]) -> Result<(), CheckRefused>
    ensures ok { OnOk result (AreNowhere model.now (map TableGap tables.now)) }
    ensures err { IfErr result (λ why. RefusesGaps model.now (map TableGap tables.now) why) }
{
    for table in tables {
        check_table(alloc, model, table)?;
    }
    Ok(())
}

fn check_table(alloc: Global, model: &Model, table: &Table) -> Result<(), CheckRefused>
    ensures ok { OnOk result (IsNowhere model.now (TableGap table.now)) }
    ensures err { IfErr result (λ why. RefusesGaps model.now (TableGap table.now ∷ []) why) }
{
    match bare_variant(alloc, model, table)? {
        Some(config) => {
            let name = table.name.copy(alloc)?;
            Err(CheckRefused::NoColumn(name, config))
        }
        None => Ok(()),
    }
}

/// An admitted variant in which the table is there without a column.
fn bare_variant(alloc: Global, model: &Model, table: &Table) -> Result<Option<Config>, Memory>
    ensures some { IfOk result (λ found. IfSome found (λ c. IsGapAt model.now (TableGap table.now) c)) }
    ensures none { IfOk result (λ found. IfNone found (IsNowhere model.now (TableGap table.now))) }
{
    let mut asked = without_columns(alloc, table.columns.as_slice())?;
    asked.push(Asked {
        expr: &table.cond,
        value: true,
    })?;
    model.find_meeting(&asked)
}

/// That none of the columns is there.
fn without_columns(alloc: Global, columns: &[Column]) -> Result<Vec<Asked<'_>>, Memory>
    ensures { IfOk result (λ asked. (c : Items ℕ) → all_met c asked.items ≡ negation (list_any (is_column_there c) columns.now)) }
{
    let mut asked = Vec::new(alloc);
    for column in columns {
        asked.push(Asked {
            expr: &column.cond,
            value: false,
        })?;
    }
    Ok(asked)
}
