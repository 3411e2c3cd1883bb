ghost use Rattle.std.specs.Prelude.{◌≡◌, IfOk};
ghost use Rattle.std.specs.Option.{option_copied};
ghost use Rattle.vra_syntax.specs.Binding.{value_at, bound_operand, bound_row};

use crate::cond::Operand;
use feature_expr::{List, Memory, TryCopy, Value};
use std::alloc::Global;

/// The value of a parameter, by its number from 1.
fn value_at(values: &[Value], number: u16) -> Option<&Value>
    ensures { option_copied result ≡ value_at values.now number }
{
    if number == 0 {
        None
    } else {
        values.get(usize::from(number) - 1)
    }
}

/// A second operand, equal to the first but for a parameter that has a value.
pub fn bound_operand(alloc: Global, operand: &Operand, values: &[Value]) -> Result<Operand, Memory>
    ensures { IfOk result (λ it. it ≡ bound_operand values.now operand.now) }
{
    match operand {
        Operand::Column(_) => operand.copy(alloc),
        Operand::Literal(_) => operand.copy(alloc),
        Operand::Param(number) => bound_param(alloc, *number, values),
    }
}

fn bound_param(alloc: Global, number: u16, values: &[Value]) -> Result<Operand, Memory>
    ensures { IfOk result (λ it. it ≡ bound_operand values.now (Operand.Param number)) }
{
    match value_at(values, number) {
        Some(value) => {
            let value = value.copy(alloc)?;
            Ok(Operand::Literal(value))
        }
        None => Ok(Operand::Param(number)),
    }
}

pub fn bound_row(alloc: Global, row: &[Operand], values: &[Value]) -> Result<List<Operand>, Memory>
    ensures { IfOk result (λ it. it ≡ bound_row values.now row.now) }
{
    let mut bound = Vec::with_capacity(alloc, row.len())?;
    for operand in row {
        let operand = bound_operand(alloc, operand, values)?;
        bound.push(operand)?;
    }
    Ok(List::from_vec(bound))
}
