ghost use Rattle.std.specs.Prelude.{◌≡◌, true, length};
ghost use Rattle.vra_types.specs.Alike.{AreAlike, HasAlike, valued};

use feature_expr::{Value, is_same_expr, mixed};
use std::collections::BTreeMap;
use vschema::OpeningRow;

/// Whether the place that is kept under the fingerprint is that of an earlier row which is alike.
pub fn is_alike_to_judged(
    judged: &BTreeMap<u64, usize>,
    print: u64,
    earlier: &[OpeningRow],
    row: &OpeningRow,
) -> bool
    ensures { result ≡ true → HasAlike earlier.now row.now }
{
    match judged.get(&print) {
        Some(place) => is_alike_at(earlier, *place, row),
        None => false,
    }
}

fn is_alike_at(earlier: &[OpeningRow], place: usize, row: &OpeningRow) -> bool
    ensures { result ≡ true → HasAlike earlier.now row.now }
{
    match earlier.get(place) {
        Some(other) => are_alike(other, row),
        None => false,
    }
}

fn are_alike(one: &OpeningRow, other: &OpeningRow) -> bool
    ensures { result ≡ true → AreAlike one.now other.now }
{
    one.table == other.table
        && have_values_alike(one.cells.as_slice(), other.cells.as_slice())
        && is_same_expr(&one.cond, &other.cond)
}

/// Whether the same places have a value.
fn have_values_alike(one: &[Option<Value>], other: &[Option<Value>]) -> bool
    ensures { result ≡ true → valued one.now ≡ valued other.now }
{
    if one.len() != other.len() {
        return false;
    }
    for place in 0..one.len() {
        if one[place].is_some() != other[place].is_some() {
            return false;
        }
    }
    true
}

/// A number that rows which are alike share, and others hardly ever.
pub fn fingerprint(row: &OpeningRow) -> u64 {
    let mut print = mixed(0, row.table as u64);
    for cell in row.cells.as_slice() {
        print = mixed(print, cell.is_some() as u64);
    }
    mixed(print, feature_expr::fingerprint(&row.cond))
}
