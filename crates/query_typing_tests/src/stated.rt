//! What the tests have in common.

ghost use Rattle.std.specs.Prelude.{IfOk};
ghost use Rattle.vschema.specs.Formed.{IsFormed};

use condition_sat::Model;
use feature_expr::Features;
use query_names::TableNames;
use query_parser::parse;
use std::alloc::Global;
use values::{List, Memory, TryCopy};
use vra_syntax::Statement;
use vschema::{Catalog, OpeningRow};

pub fn table_names<'a>(
    alloc: Global,
    catalog: &'a Catalog,
    rows: &List<OpeningRow>,
) -> Result<TableNames<'a>, Memory>
    requires { IsFormed catalog.now rows.now }
{
    TableNames::new(alloc, catalog.tables.as_slice())
}

pub fn model_of(alloc: Global, catalog: &Catalog) -> Result<Model, Memory> {
    let expr = catalog.model.copy(alloc)?;
    Model::new(alloc, expr)
}

/// The only statement of a text.
pub fn statement(alloc: Global, text: &str, features: &Features) -> Option<Statement> {
    parse(alloc, text, features, true).ok()?.pop()
}
