ghost use Rattle.std.specs.Prelude.{◌≡◌, ◌≤◌, length, IfOk};
ghost use Rattle.vra_syntax.specs.Binding.{bound_statement};
ghost use Rattle.vra_syntax.specs.Parameters.{greatest_param};

use crate::bind_query::bound_query;
use crate::bind_write::bound_write;
use crate::statement::Statement;
use feature_expr::{List, Memory, Value};
use std::alloc::Global;

/// The statement with each parameter replaced by its value: number 1 by the first, and so on. A parameter that has no
/// value stays as it is.
#[tactic(auto, using(crate::proofs::BoundLaws::no_parameter_left))]
pub fn bind_params(
    alloc: Global,
    statement: &Statement,
    values: &List<Value>,
) -> Result<Statement, Memory>
    ensures bound { IfOk result (λ it. it ≡ bound_statement values.now statement.now) }
    ensures whole { IfOk result (λ it. greatest_param statement.now ≤ length values.now → greatest_param it ≡ 0) }
{
    bound_statement(alloc, statement, values.as_slice())
}

pub fn bound_statement(
    alloc: Global,
    statement: &Statement,
    values: &[Value],
) -> Result<Statement, Memory>
    ensures { IfOk result (λ it. it ≡ bound_statement values.now statement.now) }
{
    match statement {
        Statement::Query(query) => {
            let query = bound_query(alloc, query, values)?;
            Ok(Statement::Query(query))
        }
        Statement::Write(write) => {
            let write = bound_write(alloc, write, values)?;
            Ok(Statement::Write(write))
        }
        Statement::Begin => Ok(Statement::Begin),
        Statement::Commit => Ok(Statement::Commit),
        Statement::Rollback => Ok(Statement::Rollback),
        Statement::Set => Ok(Statement::Set),
    }
}
