//! The texts of statements.

ghost use Rattle.std.specs.Prelude.{◌≡◌, ◌++◌, OnOk, IfOk};
ghost use Rattle.query_printer.specs.Printing.{text_of};

use crate::print_query::print_query;
use crate::print_write::print_write;
use feature_expr::{Features, Memory, Text};
use std::alloc::Global;
use vra_syntax::Statement;

/// The text of a statement, with single spaces, and brackets where a part would else be read otherwise.
pub fn print_statement(
    alloc: Global,
    statement: &Statement,
    features: &Features,
) -> Result<Text, Memory>
    ensures { IfOk result (λ text. text ≡ text_of features.now statement.now) }
{
    let mut text = Vec::new(alloc);
    print_into(alloc, statement, features, &mut text)?;
    Ok(Text::from_vec(text))
}

fn print_into(
    alloc: Global,
    statement: &Statement,
    features: &Features,
    text: &mut Vec<u8>,
) -> Result<(), Memory>
    ensures { OnOk result (text.new.items ≡ text.old.items ++ text_of features.now statement.now) }
{
    match statement {
        Statement::Query(query) => print_query(alloc, query, features, text),
        Statement::Write(write) => print_write(alloc, write, features, text),
        Statement::Begin => {
            text.extend_from_slice(b"begin")?;
            Ok(())
        }
        Statement::Commit => {
            text.extend_from_slice(b"commit")?;
            Ok(())
        }
        Statement::Rollback => {
            text.extend_from_slice(b"rollback")?;
            Ok(())
        }
        Statement::Set => {
            text.extend_from_slice(b"set x to 0")?;
            Ok(())
        }
    }
}
