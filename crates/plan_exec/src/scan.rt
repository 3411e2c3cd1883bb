ghost use Rattle.std.specs.Prelude.{◌≡◌, ◌∷◌, ◌++◌, IfOk, OnOk};
ghost use Rattle.plan_exec.specs.Scanned.{collected, with_number};
ghost use Rattle.query_meaning.specs.Plans.{AreScanned};

use query_meaning::Plan;
use std::alloc::Global;
use values::{List, Memory};

/// The numbers of the tables that the plan scans, ascending, each once.

pub fn scanned(alloc: Global, plan: &Plan) -> Result<List<u32>, Memory>
    ensures { IfOk result (λ numbers. AreScanned plan.now numbers) }
{
    let none = Vec::new(alloc);
    let numbers = collected(alloc, plan, none)?;
    Ok(List::from_vec(numbers))
}

fn collected(alloc: Global, plan: &Plan, numbers: Vec<u32>) -> Result<Vec<u32>, Memory>
    ensures { IfOk result (λ it. it.items ≡ collected plan.now numbers.items) }
{
    let mut numbers = numbers;
    let mut at = plan;
    loop {
        match at {
            Plan::Scan(number) => return with_number(alloc, *number, numbers.as_slice()),
            Plan::Filter(source, _cond) => at = source.get(),
            Plan::Keep(source, _items) => at = source.get(),
            Plan::Join(left, right, _cond) => {
                numbers = collected(alloc, right.get(), numbers)?;
                at = left.get();
            }
            Plan::Union(left, right) => {
                numbers = collected(alloc, right.get(), numbers)?;
                at = left.get();
            }
            Plan::Except(left, right) => {
                numbers = collected(alloc, right.get(), numbers)?;
                at = left.get();
            }
            Plan::Rename(source, _alias) => at = source.get(),
            Plan::Choose(_expr, left, right) => {
                numbers = collected(alloc, right.get(), numbers)?;
                at = left.get();
            }
            Plan::Nothing => return Ok(numbers),
        }
    }
}

/// The ascending numbers with one more, if it isn't among them.
fn with_number(alloc: Global, number: u32, numbers: &[u32]) -> Result<Vec<u32>, Memory>
    ensures { IfOk result (λ it. it.items ≡ with_number number numbers.now) }
{
    let mut out = Vec::with_capacity(alloc, numbers.len())?;
    let mut left = numbers;
    while let Some((first, more)) = left.split_first() {
        if number < *first {
            out.push(number)?;
            out.extend_from_slice(left)?;
            return Ok(out);
        }
        if number == *first {
            out.extend_from_slice(left)?;
            return Ok(out);
        }
        out.push(*first)?;
        left = more;
    }
    out.push(number)?;
    Ok(out)
}
