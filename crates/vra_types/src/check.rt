ghost use Rattle.std.specs.Prelude.{◌≡◌, IfOk, IfErr, OnOk};
ghost use Rattle.vra_types.specs.Check.{HasVariant, Passes, RefusesCatalogue, RefusesModel};
ghost use Rattle.vra_types.specs.declared.refused.CheckRefused.TheVariants as refused;

use crate::check_row::check_rows;
use crate::check_table::check_tables;
use crate::refused::CheckRefused;
use condition_sat::Model;
use feature_expr::{Expr, List, TryCopy};
use std::alloc::Global;
use vschema::{Catalog, OpeningRow};

/// The feature model of a catalogue, where the catalogue has a variant and no gap in any of them. Else the first cause
/// in this order: the model, the tables, the rows, and in a row its columns.
///
/// It asks whether conditions can hold together, once for rows that are alike, and goes through no variants.
#[tactic(auto, using(crate::proofs::PassLaws::unrefused))]
pub fn check_catalog(
    alloc: Global,
    catalog: &Catalog,
    rows: &List<OpeningRow>,
) -> Result<Model, CheckRefused>
    ensures model { IfOk result (λ model. model ≡ catalog.now.model) }
    ensures passes { OnOk result (Passes catalog.now rows.now) }
    ensures accepted { Passes catalog.now rows.now → IfErr result (λ why. why ≡ refused.Memory) }
    ensures refused { IfErr result (λ why. RefusesCatalogue catalog.now rows.now why) }
{
    let model = checked_model(alloc, &catalog.model)?;
    check_tables(alloc, &model, catalog.tables.as_slice())?;
    check_rows(alloc, &model, catalog.tables.as_slice(), rows.as_slice())?;
    Ok(model)
}

/// The feature model, where it admits a configuration.
fn checked_model(alloc: Global, expr: &Expr) -> Result<Model, CheckRefused>
    ensures model { IfOk result (λ model. model ≡ expr.now) }
    ensures ok { OnOk result (HasVariant expr.now) }
    ensures err { IfErr result (λ why. RefusesModel expr.now why) }
{
    let expr = expr.copy(alloc)?;
    let mut model = Model::new(alloc, expr)?;
    check_model(&mut model)?;
    Ok(model)
}

fn check_model(model: &mut Model) -> Result<(), CheckRefused>
    ensures same { model.new ≡ model.old }
    ensures ok { OnOk result (HasVariant model.old) }
    ensures err { IfErr result (λ why. RefusesModel model.old why) }
{
    match model.find_any()? {
        Some(_config) => Ok(()),
        None => Err(CheckRefused::NoVariant),
    }
}
