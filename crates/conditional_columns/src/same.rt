ghost use Rattle.std.specs.Prelude.{◌≡◌, true};

use crate::read::is_like;
use feature_expr::is_same_expr;
use query_meaning::TypedColumn;

/// Whether the lists are one: the same columns in the same order, each under the same condition, node by node.
pub fn are_same(columns: &[TypedColumn], others: &[TypedColumn]) -> bool
    ensures { result ≡ true → columns.now ≡ others.now }
{
    if columns.len() != others.len() {
        return false;
    }
    for place in 0..columns.len() {
        if !is_same(&columns[place], &others[place]) {
            return false;
        }
    }
    true
}

fn is_same(one: &TypedColumn, other: &TypedColumn) -> bool
    ensures { result ≡ true → one.now ≡ other.now }
{
    is_like(one, other) && is_same_expr(&one.cond, &other.cond)
}
