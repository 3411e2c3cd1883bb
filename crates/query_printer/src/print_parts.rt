//! The texts of the small parts of a statement.

ghost use Rattle.std.specs.Prelude.{◌≡◌, ◌++◌, ℕ, List, OnOk, map, flat_map, codes, decimal};
ghost use Rattle.std.specs.Fmt.{signed_decimal};
ghost use Rattle.feature_expr.specs.Printing.{opening, closing};
ghost use Rattle.feature_expr.specs.Printing as exprs;
ghost use Rattle.query_printer.specs.Printing.{behind_comma, listed, column_text, byte_text, quoted, truth_text, value_text, operand_text, op_text, choice_text, when_text, rename_text, item_when_text, items_text};

use feature_expr::{ColName, Expr, Features, Memory, Name, Value, print_expr};
use itoa::Buffer;
use std::alloc::Global;
use vra_syntax::{Item, Items, Op, Operand};

/// A part of a statement of which several stand with commas between them.
pub trait Listed {
    ghost printed: { List (List ℕ) → Self → List ℕ };

    fn print(&self, alloc: Global, features: &Features, text: &mut Vec<u8>) -> Result<(), Memory>
        ensures { OnOk result (text.new.items ≡ text.old.items ++ printed features.now self.now) };
}

impl Listed for Name {
    ghost printed = { λ names name. name };

    fn print(&self, alloc: Global, features: &Features, text: &mut Vec<u8>) -> Result<(), Memory> {
        text.extend_from_slice(self.as_slice())?;
        Ok(())
    }
}

impl Listed for Operand {
    ghost use Rattle.query_printer.specs.Printing.{operand_text};

    ghost printed = { λ names operand. operand_text operand };

    fn print(&self, alloc: Global, features: &Features, text: &mut Vec<u8>) -> Result<(), Memory> {
        print_operand(self, text)
    }
}

impl Listed for Item {
    ghost use Rattle.query_printer.specs.Printing.{item_text};

    ghost printed = { item_text };

    fn print(&self, alloc: Global, features: &Features, text: &mut Vec<u8>) -> Result<(), Memory> {
        print_column(&self.column, text)?;
        print_rename(&self.rename, text)?;
        print_item_when(alloc, &self.cond, features, text)
    }
}

/// The parts with commas between them.
pub fn print_listed<T: Listed>(
    alloc: Global,
    parts: &[T],
    features: &Features,
    text: &mut Vec<u8>,
) -> Result<(), Memory>
    ensures { OnOk result (text.new.items ≡ text.old.items ++ listed (map (T.printed features.now) parts.now)) }
{
    match parts.split_first() {
        Some((first, rest)) => {
            first.print(alloc, features, text)?;
            print_rest(alloc, rest, features, text)
        }
        None => Ok(()),
    }
}

fn print_rest<T: Listed>(
    alloc: Global,
    parts: &[T],
    features: &Features,
    text: &mut Vec<u8>,
) -> Result<(), Memory>
    ensures { OnOk result (text.new.items ≡ text.old.items ++ flat_map behind_comma (map (T.printed features.now) parts.now)) }
{
    for part in parts {
        text.extend_from_slice(b", ")?;
        part.print(alloc, features, text)?;
    }
    Ok(())
}

pub fn open(is_free: bool, text: &mut Vec<u8>) -> Result<(), Memory>
    ensures { OnOk result (text.new.items ≡ text.old.items ++ opening is_free) }
{
    if !is_free {
        text.extend_from_slice(b"(")?;
    }
    Ok(())
}

pub fn close(is_free: bool, text: &mut Vec<u8>) -> Result<(), Memory>
    ensures { OnOk result (text.new.items ≡ text.old.items ++ closing is_free) }
{
    if !is_free {
        text.extend_from_slice(b")")?;
    }
    Ok(())
}

pub fn print_column(column: &ColName, text: &mut Vec<u8>) -> Result<(), Memory>
    ensures { OnOk result (text.new.items ≡ text.old.items ++ column_text column.now) }
{
    if let Some(prefix) = &column.prefix {
        text.extend_from_slice(prefix.as_slice())?;
        text.push(b'.')?;
    }
    text.extend_from_slice(column.base.as_slice())?;
    Ok(())
}

pub fn print_operand(operand: &Operand, text: &mut Vec<u8>) -> Result<(), Memory>
    ensures { OnOk result (text.new.items ≡ text.old.items ++ operand_text operand.now) }
{
    match operand {
        Operand::Column(column) => print_column(column, text),
        Operand::Literal(value) => print_value(value, text),
        Operand::Param(number) => print_param(*number, text),
    }
}

fn print_value(value: &Value, text: &mut Vec<u8>) -> Result<(), Memory>
    ensures { OnOk result (text.new.items ≡ text.old.items ++ value_text value.now) }
{
    match value {
        Value::Int(number) => print_integer(*number, text),
        Value::Text(bytes) => print_quoted(bytes.as_slice(), text),
        Value::Bool(truth) => print_truth(*truth, text),
    }
}

fn print_integer(number: i64, text: &mut Vec<u8>) -> Result<(), Memory>
    ensures { OnOk result (text.new.items ≡ text.old.items ++ signed_decimal number) }
{
    let mut buffer = Buffer::new();
    text.extend_from_slice(buffer.format(number).as_bytes())?;
    Ok(())
}

fn print_param(number: u16, text: &mut Vec<u8>) -> Result<(), Memory>
    ensures { OnOk result (text.new.items ≡ text.old.items ++ codes "$" ++ decimal number) }
{
    let mut buffer = Buffer::new();
    text.push(b'$')?;
    text.extend_from_slice(buffer.format(number).as_bytes())?;
    Ok(())
}

fn print_quoted(bytes: &[u8], text: &mut Vec<u8>) -> Result<(), Memory>
    ensures { OnOk result (text.new.items ≡ text.old.items ++ quoted bytes.now) }
{
    text.push(b'\'')?;
    print_bytes(bytes, text)?;
    text.push(b'\'')?;
    Ok(())
}

fn print_bytes(bytes: &[u8], text: &mut Vec<u8>) -> Result<(), Memory>
    ensures { OnOk result (text.new.items ≡ text.old.items ++ flat_map byte_text bytes.now) }
{
    for byte in bytes {
        print_byte(*byte, text)?;
    }
    Ok(())
}

fn print_byte(byte: u8, text: &mut Vec<u8>) -> Result<(), Memory>
    ensures { OnOk result (text.new.items ≡ text.old.items ++ byte_text byte) }
{
    if byte == b'\'' {
        text.extend_from_slice(b"''")?;
    } else {
        text.push(byte)?;
    }
    Ok(())
}

fn print_truth(truth: bool, text: &mut Vec<u8>) -> Result<(), Memory>
    ensures { OnOk result (text.new.items ≡ text.old.items ++ truth_text truth) }
{
    if truth {
        text.extend_from_slice(b"true")?;
    } else {
        text.extend_from_slice(b"false")?;
    }
    Ok(())
}

pub fn print_op(op: Op, text: &mut Vec<u8>) -> Result<(), Memory>
    ensures { OnOk result (text.new.items ≡ text.old.items ++ op_text op) }
{
    match op {
        Op::Eq => text.extend_from_slice(b" = ")?,
        Op::Ne => text.extend_from_slice(b" <> ")?,
        Op::Lt => text.extend_from_slice(b" < ")?,
        Op::Le => text.extend_from_slice(b" <= ")?,
        Op::Gt => text.extend_from_slice(b" > ")?,
        Op::Ge => text.extend_from_slice(b" >= ")?,
    }
    Ok(())
}

fn put_expr(
    alloc: Global,
    expr: &Expr,
    features: &Features,
    text: &mut Vec<u8>,
) -> Result<(), Memory>
    ensures { OnOk result (text.new.items ≡ text.old.items ++ exprs.text_of features.now expr.now) }
{
    let printed = print_expr(alloc, expr, features)?;
    text.extend_from_slice(printed.as_slice())?;
    Ok(())
}

/// A choice up to its sides.
#[tactic(auto, unfolding(crate::specs::Printing::choice_text))]
pub fn print_choice(
    alloc: Global,
    expr: &Expr,
    features: &Features,
    text: &mut Vec<u8>,
) -> Result<(), Memory>
    ensures { OnOk result (text.new.items ≡ text.old.items ++ choice_text features.now expr.now) }
{
    text.extend_from_slice(b"choice [")?;
    put_expr(alloc, expr, features, text)?;
    text.extend_from_slice(b"] (")?;
    Ok(())
}

/// `when` and the expression of a write, nothing at the expression True.
#[tactic(auto, unfolding(crate::specs::Printing::when_text))]
pub fn print_when(
    alloc: Global,
    expr: &Expr,
    features: &Features,
    text: &mut Vec<u8>,
) -> Result<(), Memory>
    ensures { OnOk result (text.new.items ≡ text.old.items ++ when_text features.now expr.now) }
{
    if matches!(expr, Expr::True) {
        return Ok(());
    }
    text.extend_from_slice(b" when ")?;
    put_expr(alloc, expr, features, text)
}

fn print_rename(rename: &Option<ColName>, text: &mut Vec<u8>) -> Result<(), Memory>
    ensures { OnOk result (text.new.items ≡ text.old.items ++ rename_text rename.now) }
{
    match rename {
        Some(column) => {
            text.extend_from_slice(b" as ")?;
            print_column(column, text)
        }
        None => Ok(()),
    }
}

fn print_item_when(
    alloc: Global,
    cond: &Option<Expr>,
    features: &Features,
    text: &mut Vec<u8>,
) -> Result<(), Memory>
    ensures { OnOk result (text.new.items ≡ text.old.items ++ item_when_text features.now cond.now) }
{
    match cond {
        Some(expr) => {
            text.extend_from_slice(b" when ")?;
            put_expr(alloc, expr, features, text)
        }
        None => Ok(()),
    }
}

/// What a select keeps.
#[tactic(auto, unfolding(crate::specs::Printing::items_text))]
pub fn print_items(
    alloc: Global,
    items: &Items,
    features: &Features,
    text: &mut Vec<u8>,
) -> Result<(), Memory>
    ensures { OnOk result (text.new.items ≡ text.old.items ++ items_text features.now items.now) }
{
    match items {
        Items::All => {
            text.push(b'*')?;
            Ok(())
        }
        Items::Listed(kept) => print_listed(alloc, kept.as_slice(), features, text),
    }
}
