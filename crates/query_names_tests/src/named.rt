//! What the tests have in common.

ghost use Rattle.std.specs.Prelude.{IfOk};
ghost use Rattle.vschema.specs.Formed.{IsFormed};

use feature_expr::Features;
use query_names::{PossibleColumn, TableNames};
use query_parser::parse;
use std::alloc::Global;
use values::{Kind, List, Memory, Name};
use vra_syntax::Statement;
use vschema::{Catalog, OpeningRow};

pub fn table_names<'a>(
    alloc: Global,
    catalog: &'a Catalog,
    rows: &List<OpeningRow>,
) -> Result<TableNames<'a>, Memory>
    requires { IsFormed catalog.now rows.now }
{
    TableNames::new(alloc, catalog.tables.as_slice())
}

/// The only statement of a text.
pub fn statement(alloc: Global, text: &str, features: &Features) -> Option<Statement> {
    parse(alloc, text, features, true).ok()?.pop()
}

/// The columns with their kinds, with `, ` between them.
pub fn listed(alloc: Global, columns: &[PossibleColumn]) -> Option<Vec<u8>> {
    let mut text = Vec::new(alloc);
    for column in columns {
        if !text.is_empty() {
            text.extend_from_slice(b", ").ok()?;
        }
        put_column(&mut text, column)?;
    }
    Some(text)
}

fn put_column(text: &mut Vec<u8>, column: &PossibleColumn) -> Option<()> {
    if let Some(prefix) = column.prefix {
        text.extend_from_slice(prefix.as_slice()).ok()?;
        text.extend_from_slice(b".").ok()?;
    }
    text.extend_from_slice(column.base.as_slice()).ok()?;
    text.extend_from_slice(kind_word(column.kind)).ok()
}

pub fn kind_word(kind: Kind) -> &'static [u8] {
    match kind {
        Kind::Int => b" int8",
        Kind::Text => b" text",
        Kind::Bool => b" bool",
    }
}
