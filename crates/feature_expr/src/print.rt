ghost use Rattle.std.specs.Prelude.{◌≡◌, ◌++◌, OnOk, IfOk};
ghost use Rattle.feature_expr.specs.Printing.{takes_and, takes_or, opening, closing, name_of, text_at, text_of};
ghost use Rattle.feature_expr.specs.Rests.{text_behind};

use crate::expr::Expr;
use crate::features::Features;
use std::alloc::Global;
use values::{Memory, Text};

/// What stands at a place without brackets: an operand takes no chain, a conjunct one of `and`, a disjunct any.
#[derive(Clone, Copy)]
enum Position {
    Operand,
    Conjunct,
    Disjunct,
}

fn takes_and(position: Position) -> bool
    ensures { result ≡ takes_and position }
{
    !matches!(position, Position::Operand)
}

fn takes_or(position: Position) -> bool
    ensures { result ≡ takes_or position }
{
    matches!(position, Position::Disjunct)
}

/// What stands behind the left side of a chain: its right side, and the bracket that the chain has at its position.
#[derive(Clone, Copy)]
enum Rest<'a> {
    And(&'a Expr, Position),
    Or(&'a Expr, Position),
}

/// The text of an expression, with single spaces and the fewest brackets. A feature that has no name is left out.
pub fn print_expr(alloc: Global, expr: &Expr, features: &Features) -> Result<Text, Memory>
    ensures { IfOk result (λ text. text ≡ text_of features.now expr.now) }
{
    let mut text = Vec::new(alloc);
    print_into(alloc, expr, Position::Disjunct, features, &mut text)?;
    Ok(Text::from_vec(text))
}

/// Goes down the left side, keeping what stands behind it, and then back up.
#[cycle(print)]
fn print_into(
    alloc: Global,
    expr: &Expr,
    position: Position,
    features: &Features,
    text: &mut Vec<u8>,
) -> Result<(), Memory>
    ensures { OnOk result (text.new.items ≡ text.old.items ++ text_at features.now expr.now position) }
{
    let mut rests = Vec::new(alloc);
    let mut at = expr;
    let mut position = position;
    'down: loop {
        match at {
            Expr::Not(inner) => {
                text.extend_from_slice(b"not ")?;
                at = inner.get();
                position = Position::Operand;
            }
            Expr::And(left, right) => {
                open(takes_and(position), text)?;
                rests.push(Rest::And(right.get(), position))?;
                at = left.get();
                position = Position::Conjunct;
            }
            Expr::Or(left, right) => {
                open(takes_or(position), text)?;
                rests.push(Rest::Or(right.get(), position))?;
                at = left.get();
                position = Position::Disjunct;
            }
            Expr::True => {
                text.extend_from_slice(b"true")?;
                break;
            }
            Expr::False => {
                text.extend_from_slice(b"false")?;
                break;
            }
            Expr::Feature(feature) => {
                print_name(*feature, features, text)?;
                break;
            }
        }
    }
    while let Some(rest) = rests.pop() {
        print_rest(alloc, rest, features, text)?;
    }
    Ok(())
}

#[cycle(print)]
fn print_rest(
    alloc: Global,
    rest: Rest<'_>,
    features: &Features,
    text: &mut Vec<u8>,
) -> Result<(), Memory>
    ensures { OnOk result (text.new.items ≡ text.old.items ++ text_behind features.now rest.entry) }
{
    match rest {
        Rest::And(right, position) => {
            text.extend_from_slice(b" and ")?;
            print_into(alloc, right, Position::Operand, features, text)?;
            close(takes_and(position), text)
        }
        Rest::Or(right, position) => {
            text.extend_from_slice(b" or ")?;
            print_into(alloc, right, Position::Conjunct, features, text)?;
            close(takes_or(position), text)
        }
    }
}

fn print_name(feature: u8, features: &Features, text: &mut Vec<u8>) -> Result<(), Memory>
    ensures { OnOk result (text.new.items ≡ text.old.items ++ name_of features.now feature) }
{
    match features.get(feature) {
        Some(name) => {
            text.extend_from_slice(name.as_slice())?;
            Ok(())
        }
        None => Ok(()),
    }
}

fn open(is_free: bool, text: &mut Vec<u8>) -> Result<(), Memory>
    ensures { OnOk result (text.new.items ≡ text.old.items ++ opening is_free) }
{
    if !is_free {
        text.extend_from_slice(b"(")?;
    }
    Ok(())
}

fn close(is_free: bool, text: &mut Vec<u8>) -> Result<(), Memory>
    ensures { OnOk result (text.new.items ≡ text.old.items ++ closing is_free) }
{
    if !is_free {
        text.extend_from_slice(b")")?;
    }
    Ok(())
}
