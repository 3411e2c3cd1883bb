ghost use Rattle.std.specs.Prelude.{◌≡◌, ◌<◌, ◌≤◌, ◌+◌, ◌^◌, true, false, length, Some, IfOk, IfErr};
ghost use Rattle.query_parser.specs.Lexemes.{stands};
ghost use Rattle.query_parser.specs.Statements.{NamesTo, IsTuple, TuplesTo, IsSetItem, SetItemsTo};
ghost use Rattle.query_parser.specs.WriteFaults.{NamesFault, TupleFault, TuplesFault, SetItemFault, SetItemsFault, InsertFault, DeleteFault, UpdateFault};
ghost use Rattle.query_parser.specs.Writes.{SpellsInsert, SpellsDelete, SpellsUpdate};
ghost use Rattle.query_parser.specs.declared.lexeme.Lexeme.TheVariants as lexeme;
ghost use Rattle.feature_expr.specs.Nesting.{nesting_limit};

use crate::clauses::parse_when;
use crate::conditions::parse_where;
use crate::fault::ParseFault;
use crate::lexeme::{Lexeme, stands};
use crate::parsing::Parsing;
use crate::words::{name_at, value_at, wanted};
use feature_expr::{List, Name, Reading};
use vra_syntax::{Operand, SetItem, Write};

/// The insert whose word stands before a token, and the token behind it.
#[tactic(auto, using(crate::specs::WriteFaults::insert_memory, crate::specs::WriteFaults::no_into, crate::specs::WriteFaults::no_insert_table, crate::specs::WriteFaults::no_names, crate::specs::WriteFaults::in_names, crate::specs::WriteFaults::no_values, crate::specs::WriteFaults::in_tuples, crate::specs::WriteFaults::in_insert_when))]
pub fn parse_insert(parsing: &Parsing<'_>, at: usize) -> Result<(Write, usize), ParseFault>
    requires limit { parsing.now.reading.max_nesting ≡ nesting_limit }
    ensures within { IfOk result (λ found. (at < found.1) × (found.1 ≤ length parsing.now.reading.tokens.now)) }
    ensures spelled { IfOk result (λ found. SpellsInsert parsing.now.with_params parsing.now.reading.features.now parsing.now.reading.text.now parsing.now.reading.tokens.now at found.0 found.1) }
    ensures refused { IfErr result (InsertFault parsing.now.with_params parsing.now.reading.features.now parsing.now.reading.text.now parsing.now.reading.tokens.now at) }
{
    let reading = &parsing.reading;
    wanted(reading, at, Lexeme::Into)?;
    let table = name_at(reading, at + 1)?;
    wanted(reading, at + 2, Lexeme::Open)?;
    let (columns, close) = parse_names(reading, at + 3)?;
    wanted(reading, close + 1, Lexeme::Values)?;
    let (rows, last) = parse_tuples(parsing, columns.len(), close + 2)?;
    let (expr, end) = parse_when(reading, last)?;
    Ok((Write::Insert(table, columns, rows, expr), end))
}

/// Names with commas between them, and the bracket that closes them.
#[tactic(auto, using(crate::specs::Statements::one_name, crate::specs::Statements::another_name, crate::specs::WriteFaults::names_memory, crate::specs::WriteFaults::no_first_name, crate::specs::WriteFaults::no_next_name, crate::specs::WriteFaults::names_unclosed))]
fn parse_names(reading: &Reading<'_>, from: usize) -> Result<(List<Name>, usize), ParseFault>
    ensures within { IfOk result (λ found. (from < found.1) × (found.1 < length reading.now.tokens.now)) }
    ensures room { IfOk result (λ found. found.1 + 1 < 2 ^ 64) }
    ensures spelled { IfOk result (λ found. NamesTo reading.now.text.now reading.now.tokens.now from found.0 found.1) }
    ensures closed { IfOk result (λ found. stands reading.now.text.now reading.now.tokens.now found.1 lexeme.Close ≡ true) }
    ensures refused { IfErr result (NamesFault reading.now.text.now reading.now.tokens.now from) }
{
    let mut names = Vec::new(reading.alloc);
    let name = name_at(reading, from)?;
    names.push(name)?;
    let mut end = from + 1;
    'names: while stands(reading, end, Lexeme::Comma) {
        let name = name_at(reading, end + 1)?;
        names.push(name)?;
        end += 2;
    }
    wanted(reading, end, Lexeme::Close)?;
    Ok((List::from_vec(names), end))
}

/// Rows with commas between them, each of so many values, and the token behind them.
#[tactic(auto, using(crate::specs::Statements::one_tuple, crate::specs::Statements::another_tuple, crate::specs::WriteFaults::tuples_memory, crate::specs::WriteFaults::in_first_tuple, crate::specs::WriteFaults::in_next_tuple))]
fn parse_tuples(
    parsing: &Parsing<'_>,
    count: usize,
    from: usize,
) -> Result<(List<List<Operand>>, usize), ParseFault>
    ensures within { IfOk result (λ found. (from < found.1) × (found.1 ≤ length parsing.now.reading.tokens.now)) }
    ensures spelled { IfOk result (λ found. TuplesTo parsing.now.with_params parsing.now.reading.text.now parsing.now.reading.tokens.now count from found.0 found.1) }
    ensures no_more { IfOk result (λ found. stands parsing.now.reading.text.now parsing.now.reading.tokens.now found.1 lexeme.Comma ≡ false) }
    ensures refused { IfErr result (TuplesFault parsing.now.with_params parsing.now.reading.text.now parsing.now.reading.tokens.now count from) }
{
    let reading = &parsing.reading;
    let mut rows = Vec::new(reading.alloc);
    let (row, mut end) = parse_tuple(parsing, count, from)?;
    rows.push(row)?;
    'rows: while stands(reading, end, Lexeme::Comma) {
        let (row, behind) = parse_tuple(parsing, count, end + 1)?;
        rows.push(row)?;
        end = behind;
    }
    Ok((List::from_vec(rows), end))
}

/// So many values in brackets, and the token behind them.
#[tactic(auto, using(crate::specs::Statements::one_value, crate::specs::Statements::another_value, crate::specs::WriteFaults::tuple_memory, crate::specs::WriteFaults::no_tuple, crate::specs::WriteFaults::no_first_value, crate::specs::WriteFaults::no_next_value, crate::specs::WriteFaults::tuple_unclosed, crate::specs::WriteFaults::another_count))]
fn parse_tuple(
    parsing: &Parsing<'_>,
    count: usize,
    at: usize,
) -> Result<(List<Operand>, usize), ParseFault>
    ensures within { IfOk result (λ found. (at < found.1) × (found.1 ≤ length parsing.now.reading.tokens.now)) }
    ensures spelled { IfOk result (λ found. IsTuple parsing.now.with_params parsing.now.reading.text.now parsing.now.reading.tokens.now count at found.0 found.1) }
    ensures refused { IfErr result (TupleFault parsing.now.with_params parsing.now.reading.text.now parsing.now.reading.tokens.now count at) }
{
    let reading = &parsing.reading;
    wanted(reading, at, Lexeme::Open)?;
    let mut values = Vec::new(reading.alloc);
    let value = value_at(parsing, at + 1)?;
    values.push(value)?;
    let mut end = at + 2;
    'values: while stands(reading, end, Lexeme::Comma) {
        let value = value_at(parsing, end + 1)?;
        values.push(value)?;
        end += 2;
    }
    wanted(reading, end, Lexeme::Close)?;
    if values.len() != count {
        return Err(ParseFault::Syntax(end));
    }
    Ok((List::from_vec(values), end + 1))
}

/// The delete whose word stands before a token, and the token behind it.
#[tactic(auto, using(crate::specs::WriteFaults::delete_memory, crate::specs::WriteFaults::no_delete_from, crate::specs::WriteFaults::no_delete_table, crate::specs::WriteFaults::in_delete_where, crate::specs::WriteFaults::in_delete_when))]
pub fn parse_delete(parsing: &Parsing<'_>, at: usize) -> Result<(Write, usize), ParseFault>
    requires limit { parsing.now.reading.max_nesting ≡ nesting_limit }
    ensures within { IfOk result (λ found. (at < found.1) × (found.1 ≤ length parsing.now.reading.tokens.now)) }
    ensures spelled { IfOk result (λ found. SpellsDelete parsing.now.with_params parsing.now.reading.features.now parsing.now.reading.text.now parsing.now.reading.tokens.now at found.0 found.1) }
    ensures refused { IfErr result (DeleteFault parsing.now.with_params parsing.now.reading.features.now parsing.now.reading.text.now parsing.now.reading.tokens.now at) }
{
    let reading = &parsing.reading;
    wanted(reading, at, Lexeme::From)?;
    let table = name_at(reading, at + 1)?;
    let (cond, last) = parse_where(parsing, 0, at + 2)?;
    let (expr, end) = parse_when(reading, last)?;
    Ok((Write::Delete(table, cond, expr), end))
}

/// The update whose word stands before a token, and the token behind it.
#[tactic(auto, using(crate::specs::WriteFaults::update_memory, crate::specs::WriteFaults::no_update_table, crate::specs::WriteFaults::no_set, crate::specs::WriteFaults::in_set_items, crate::specs::WriteFaults::in_update_where, crate::specs::WriteFaults::in_update_when))]
pub fn parse_update(parsing: &Parsing<'_>, at: usize) -> Result<(Write, usize), ParseFault>
    requires limit { parsing.now.reading.max_nesting ≡ nesting_limit }
    ensures within { IfOk result (λ found. (at < found.1) × (found.1 ≤ length parsing.now.reading.tokens.now)) }
    ensures spelled { IfOk result (λ found. SpellsUpdate parsing.now.with_params parsing.now.reading.features.now parsing.now.reading.text.now parsing.now.reading.tokens.now at found.0 found.1) }
    ensures refused { IfErr result (UpdateFault parsing.now.with_params parsing.now.reading.features.now parsing.now.reading.text.now parsing.now.reading.tokens.now at) }
{
    let reading = &parsing.reading;
    let table = name_at(reading, at)?;
    wanted(reading, at + 1, Lexeme::Set)?;
    let (items, behind) = parse_set_items(parsing, at + 2)?;
    let (cond, last) = parse_where(parsing, 0, behind)?;
    let (expr, end) = parse_when(reading, last)?;
    Ok((Write::Update(table, items, cond, expr), end))
}

/// Columns with their new values, with commas between them, and the token behind them.
#[tactic(auto, using(crate::specs::Statements::one_set_item, crate::specs::Statements::another_set_item, crate::specs::WriteFaults::set_items_memory, crate::specs::WriteFaults::in_first_set_item, crate::specs::WriteFaults::in_next_set_item))]
fn parse_set_items(parsing: &Parsing<'_>, from: usize) -> Result<(List<SetItem>, usize), ParseFault>
    ensures within { IfOk result (λ found. (from < found.1) × (found.1 ≤ length parsing.now.reading.tokens.now)) }
    ensures spelled { IfOk result (λ found. SetItemsTo parsing.now.with_params parsing.now.reading.text.now parsing.now.reading.tokens.now from found.0 found.1) }
    ensures no_more { IfOk result (λ found. stands parsing.now.reading.text.now parsing.now.reading.tokens.now found.1 lexeme.Comma ≡ false) }
    ensures refused { IfErr result (SetItemsFault parsing.now.with_params parsing.now.reading.text.now parsing.now.reading.tokens.now from) }
{
    let reading = &parsing.reading;
    let mut items = Vec::new(reading.alloc);
    let item = parse_set_item(parsing, from)?;
    items.push(item)?;
    let mut end = from + 3;
    'items: while stands(reading, end, Lexeme::Comma) {
        let item = parse_set_item(parsing, end + 1)?;
        items.push(item)?;
        end += 4;
    }
    Ok((List::from_vec(items), end))
}

/// A column and its new value, which take three tokens.
#[tactic(auto, using(crate::specs::WriteFaults::set_item_memory, crate::specs::WriteFaults::no_set_column, crate::specs::WriteFaults::no_equal, crate::specs::WriteFaults::no_set_value))]
fn parse_set_item(parsing: &Parsing<'_>, at: usize) -> Result<SetItem, ParseFault>
    ensures within { IfOk result (λ item. at + 2 < length parsing.now.reading.tokens.now) }
    ensures room { IfOk result (λ item. at + 3 < 2 ^ 64) }
    ensures spelled { IfOk result (λ item. IsSetItem parsing.now.with_params parsing.now.reading.text.now parsing.now.reading.tokens.now at item) }
    ensures refused { IfErr result (SetItemFault parsing.now.with_params parsing.now.reading.text.now parsing.now.reading.tokens.now at) }
{
    let reading = &parsing.reading;
    let column = name_at(reading, at)?;
    wanted(reading, at + 1, Lexeme::Equal)?;
    let value = value_at(parsing, at + 2)?;
    Ok(SetItem { column, value })
}
