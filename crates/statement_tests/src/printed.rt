//! What tests of texts have in common.

use feature_expr::{Features, List, Name};
use query_parser::print_statement;
use std::alloc::Global;
use std::str;
use std::test::Fail;
use vra_syntax::Statement;

/// The features A and B.
pub fn features(alloc: Global) -> Result<Features, Fail> {
    let mut names = Vec::new(alloc);
    names.push(Name::from_slice(alloc, b"A")?)?;
    names.push(Name::from_slice(alloc, b"B")?)?;
    Ok(Features::new(List::from_vec(names))?)
}

/// The statements as they are printed, with `; ` between them.
pub fn printed(
    alloc: Global,
    statements: &List<Statement>,
    features: &Features,
) -> Result<String, Fail> {
    let mut text = String::new(alloc);
    let mut between = "";
    for statement in statements.as_slice() {
        let printed = print_statement(alloc, statement, features)?;
        text.push_str(between)?;
        text.push_str(str::from_utf8(printed.as_slice())?)?;
        between = "; ";
    }
    Ok(text)
}
