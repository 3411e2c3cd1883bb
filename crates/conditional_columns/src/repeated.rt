ghost use Rattle.std.specs.Prelude.{◌≡◌, ◌&&◌, ◌||◌, ℕ, length, List as Items, IsTrue, IfOk};
ghost use Rattle.feature_expr.specs.Expressions.{mentions};
ghost use Rattle.feature_expr.specs.Satisfaction.{satisfies};
ghost use Rattle.relational_algebra.specs.Columns.{repeated};
ghost use Rattle.query_meaning.specs.Typing.{columns_at};
ghost use Rattle.plain_relation.specs.Relations.{has_name};
ghost use Rattle.conditional_columns.specs.ColumnLists.{columns_mention, conds_mention, names_where};

use crate::put::and_too;
use crate::read::name_in;
use feature_expr::Expr;
use query_meaning::TypedColumn;
use std::alloc::Global;
use values::Memory;

/// For each column the condition under which it is there and its name stands again behind it. It takes time in the
/// square of their number.
pub fn repeats(alloc: Global, columns: &[TypedColumn]) -> Result<Vec<Expr>, Memory>
    ensures each { IfOk result (λ it. length it.items ≡ length columns.now) }
    ensures names { IfOk result (λ it. (c : Items ℕ) → repeated (columns_at c columns.now) ≡ names_where c columns.now it.items) }
    ensures known { IfOk result (λ it. (i : ℕ) → IsTrue (conds_mention i it.items) → IsTrue (columns_mention i columns.now)) }
{
    let mut faults = Vec::new(alloc);
    for place in 0..columns.len() {
        let (_, rest) = columns.split_at(place + 1);
        let fault = stands_again(alloc, &columns[place], rest)?;
        faults.push(fault)?;
    }
    Ok(faults)
}

fn stands_again(alloc: Global, column: &TypedColumn, rest: &[TypedColumn]) -> Result<Expr, Memory>
    ensures holds { IfOk result (λ it. (c : Items ℕ) → satisfies c it ≡ (satisfies c column.now.cond && has_name column.now.name (columns_at c rest.now))) }
    ensures known { IfOk result (λ it. (i : ℕ) → IsTrue (mentions i it) → IsTrue (mentions i column.now.cond || columns_mention i rest.now)) }
{
    let again = name_in(alloc, &column.name, rest)?;
    let both = and_too(alloc, &column.cond, &again)?;
    Ok(both)
}
