ghost use Rattle.std.specs.Prelude.{◌≡◌, ◌++◌, codes, decimal, OnOk, IfOk};
ghost use Rattle.feature_expr.specs.Variants.{variant_text};
ghost use Rattle.top_calls.specs.CheckLines.{passed_line, check_line_of};

use feature_expr::{Config, Features, List, Memory, Name, Text, push_variant};
use itoa::Buffer;
use std::alloc::Global;
use vra_types::CheckRefused;
use vschema::{Catalog, OpeningRow};

/// The line of a catalogue that passes its check, with its line feed.
pub fn line_of_passed(
    alloc: Global,
    catalog: &Catalog,
    rows: &List<OpeningRow>,
) -> Result<Vec<u8>, Memory>
    ensures { IfOk result (λ line. line.items ≡ passed_line catalog.now rows.now) }
{
    let mut line = Vec::from_slice(alloc, b"ok: ")?;
    put_number(&mut line, catalog.features.count() as u64)?;
    line.extend_from_slice(b" features, ")?;
    put_number(&mut line, catalog.tables.len() as u64)?;
    line.extend_from_slice(b" tables, ")?;
    put_number(&mut line, rows.len() as u64)?;
    line.extend_from_slice(b" rows")?;
    line.push(b'\n')?;
    Ok(line)
}

/// The line for a catalogue that doesn't pass its check, without a line feed.
pub fn line_of_unpassed(
    alloc: Global,
    why: &CheckRefused,
    features: &Features,
) -> Result<Text, Memory>
    ensures { IfOk result (λ line. line ≡ check_line_of features.now why.now) }
{
    match why {
        CheckRefused::NoVariant => Text::from_slice(alloc, b"catalogue: no variant"),
        CheckRefused::NoColumn(table, config) => no_column(alloc, features, table, config),
        CheckRefused::MissingValue(line, column, config) => {
            no_value(alloc, features, *line, column, config)
        }
        CheckRefused::Memory => Text::from_slice(alloc, b"out of memory"),
    }
}

fn no_column(
    alloc: Global,
    features: &Features,
    table: &Name,
    config: &Config,
) -> Result<Text, Memory>
    ensures { IfOk result (λ line. line ≡ codes "catalogue: table " ++ table.now ++ codes " has no column in variant " ++ variant_text features.now config.now) }
{
    let mut line = Vec::from_slice(alloc, b"catalogue: table ")?;
    line.extend_from_slice(table.as_slice())?;
    line.extend_from_slice(b" has no column in variant ")?;
    push_variant(&mut line, features, config)?;
    Ok(Text::from_vec(line))
}

fn no_value(
    alloc: Global,
    features: &Features,
    row_line: u64,
    column: &Name,
    config: &Config,
) -> Result<Text, Memory>
    ensures { IfOk result (λ line. line ≡ codes "catalogue: line " ++ decimal row_line ++ codes ": column " ++ column.now ++ codes " has no value in variant " ++ variant_text features.now config.now) }
{
    let mut line = Vec::from_slice(alloc, b"catalogue: line ")?;
    put_number(&mut line, row_line)?;
    line.extend_from_slice(b": column ")?;
    line.extend_from_slice(column.as_slice())?;
    line.extend_from_slice(b" has no value in variant ")?;
    push_variant(&mut line, features, config)?;
    Ok(Text::from_vec(line))
}

fn put_number(line: &mut Vec<u8>, number: u64) -> Result<(), Memory>
    ensures { OnOk result (line.new.items ≡ line.old.items ++ decimal number) }
{
    let mut buffer = Buffer::new();
    line.extend_from_slice(buffer.format(number).as_bytes())?;
    Ok(())
}
