ghost use Rattle.std.specs.Prelude.{◌≡◌, ◌<◌, ◌≤◌, ◌+◌, false, length, IfOk, IfErr};
ghost use Rattle.query_parser.specs.Faults.{WhenFault, ItemFault, ItemsFault, RenameFault};
ghost use Rattle.query_parser.specs.Lexemes.{stands};
ghost use Rattle.query_parser.specs.Parts.{IsRename, IsItemWhen, IsItem, ItemsTo, AreItems};
ghost use Rattle.query_parser.specs.declared.lexeme.Lexeme.TheVariants as lexeme;
ghost use Rattle.feature_expr.specs.Nesting.{nesting_limit};

use crate::clauses::parse_expression;
use crate::fault::ParseFault;
use crate::lexeme::{Lexeme, stands};
use crate::words::parse_column;
use feature_expr::{ColName, Expr, List, Reading};
use vra_syntax::{Item, Items};

/// What a select keeps, behind its word, and the token behind it.
#[tactic(auto, using(crate::specs::Parts::all_items, crate::specs::Parts::listed_items))]
pub fn parse_items(
    reading: &Reading<'_>,
    nesting: u32,
    at: usize,
) -> Result<(Items, usize), ParseFault>
    requires within { at ≤ length reading.now.tokens.now }
    requires limit { reading.now.max_nesting ≡ nesting_limit }
    ensures within { IfOk result (λ found. (at < found.1) × (found.1 ≤ length reading.now.tokens.now)) }
    ensures spelled { IfOk result (λ found. AreItems reading.now.features.now reading.now.text.now reading.now.tokens.now nesting at found.0 found.1) }
    ensures refused { IfErr result (ItemsFault reading.now.features.now reading.now.text.now reading.now.tokens.now nesting at) }
{
    if stands(reading, at, Lexeme::Star) {
        return Ok((Items::All, at + 1));
    }
    let (items, end) = parse_item_list(reading, nesting, at)?;
    Ok((Items::Listed(items), end))
}

/// Items with commas between them, and the token behind the last.
#[tactic(auto, using(crate::specs::Parts::one_item, crate::specs::Parts::another_item, crate::specs::Faults::items_memory, crate::specs::Faults::in_first_item, crate::specs::Faults::in_next_item))]
fn parse_item_list(
    reading: &Reading<'_>,
    nesting: u32,
    from: usize,
) -> Result<(List<Item>, usize), ParseFault>
    requires listed { stands reading.now.text.now reading.now.tokens.now from lexeme.Star ≡ false }
    requires within { from ≤ length reading.now.tokens.now }
    requires limit { reading.now.max_nesting ≡ nesting_limit }
    ensures within { IfOk result (λ found. (from < found.1) × (found.1 ≤ length reading.now.tokens.now)) }
    ensures spelled { IfOk result (λ found. ItemsTo reading.now.features.now reading.now.text.now reading.now.tokens.now nesting from found.0 found.1) }
    ensures ends { IfOk result (λ found. stands reading.now.text.now reading.now.tokens.now found.1 lexeme.Comma ≡ false) }
    ensures refused { IfErr result (ItemsFault reading.now.features.now reading.now.text.now reading.now.tokens.now nesting from) }
{
    let mut items = Vec::new(reading.alloc);
    let (first, mut end) = parse_item(reading, nesting, from)?;
    items.push(first)?;
    'items: while stands(reading, end, Lexeme::Comma) {
        let (item, next) = parse_item(reading, nesting, end + 1)?;
        items.push(item)?;
        end = next;
    }
    Ok((List::from_vec(items), end))
}

/// An item of a select, and the token behind it.
#[tactic(auto, using(crate::specs::Faults::in_item_column, crate::specs::Faults::in_rename, crate::specs::Faults::in_item_when))]
fn parse_item(reading: &Reading<'_>, nesting: u32, at: usize) -> Result<(Item, usize), ParseFault>
    requires limit { reading.now.max_nesting ≡ nesting_limit }
    ensures within { IfOk result (λ found. (at < found.1) × (found.1 ≤ length reading.now.tokens.now)) }
    ensures spelled { IfOk result (λ found. IsItem reading.now.features.now reading.now.text.now reading.now.tokens.now nesting at found.0 found.1) }
    ensures refused { IfErr result (ItemFault reading.now.features.now reading.now.text.now reading.now.tokens.now nesting at) }
{
    let (column, behind) = parse_column(reading, at)?;
    let (rename, last) = parse_rename(reading, behind)?;
    let (cond, end) = parse_item_when(reading, nesting, last)?;
    let item = Item {
        column,
        rename,
        cond,
    };
    Ok((item, end))
}

/// The new name behind the word `as`, if it stands at a place, and the token behind it.
#[tactic(auto, using(crate::specs::Parts::no_rename, crate::specs::Parts::some_rename))]
fn parse_rename(reading: &Reading<'_>, at: usize) -> Result<(Option<ColName>, usize), ParseFault>
    requires within { at ≤ length reading.now.tokens.now }
    ensures within { IfOk result (λ found. (at ≤ found.1) × (found.1 ≤ length reading.now.tokens.now)) }
    ensures spelled { IfOk result (λ found. IsRename reading.now.text.now reading.now.tokens.now at found.0 found.1) }
    ensures refused { IfErr result (RenameFault reading.now.text.now reading.now.tokens.now at) }
{
    if !stands(reading, at, Lexeme::As) {
        return Ok((None, at));
    }
    let (column, end) = parse_column(reading, at + 1)?;
    Ok((Some(column), end))
}

/// The condition behind the word `when`, if it stands at a place, and the token behind it.
#[tactic(auto, using(crate::specs::Parts::no_item_when, crate::specs::Parts::some_item_when))]
fn parse_item_when(
    reading: &Reading<'_>,
    nesting: u32,
    at: usize,
) -> Result<(Option<Expr>, usize), ParseFault>
    requires within { at ≤ length reading.now.tokens.now }
    requires limit { reading.now.max_nesting ≡ nesting_limit }
    ensures within { IfOk result (λ found. (at ≤ found.1) × (found.1 ≤ length reading.now.tokens.now)) }
    ensures spelled { IfOk result (λ found. IsItemWhen reading.now.features.now reading.now.text.now reading.now.tokens.now nesting at found.0 found.1) }
    ensures refused { IfErr result (WhenFault reading.now.features.now reading.now.text.now reading.now.tokens.now nesting at) }
{
    if !stands(reading, at, Lexeme::When) {
        return Ok((None, at));
    }
    let (cond, end) = parse_expression(reading, nesting, at + 1)?;
    Ok((Some(cond), end))
}
