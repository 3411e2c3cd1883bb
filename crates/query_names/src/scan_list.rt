ghost use Rattle.std.specs.Prelude.{◌≡◌, ◌+◌, ◌<◌, ◌++◌, OnOk, IfOk};
ghost use Rattle.query_meaning.specs.Plans.{scans};
ghost use Rattle.query_names.specs.WaitingPlans.{plan_nodes, plans, waiting_plan_nodes, waiting_scans};

use query_meaning::Plan;
use std::alloc::Global;
use values::Memory;

/// The numbers of the tables that a plan scans, one for each scan.
///
/// What is still to be read waits in a list, so that no chain takes stack.
#[tactic(auto, using(crate::proofs::WaitingLaws::one_scans, crate::proofs::WaitingLaws::one_plan_nodes))]
pub fn plan_scans(alloc: Global, plan: &Plan) -> Result<Vec<u32>, Memory>
    ensures { IfOk result (λ numbers. numbers.items ≡ scans plan.now) }
{
    let mut numbers = Vec::new(alloc);
    let mut waiting = Vec::new(alloc);
    waiting.push(plan)?;
    while let Some(next) = waiting.pop() {
        read_next(next, &mut waiting, &mut numbers)?;
    }
    Ok(numbers)
}

/// Adds a scan's number. The parts of another plan wait.
fn read_next<'a>(
    next: &'a Plan,
    waiting: &mut Vec<&'a Plan>,
    numbers: &mut Vec<u32>,
) -> Result<(), Memory>
    ensures scans { OnOk result (numbers.new.items ++ waiting_scans (plans waiting.new.items) ≡ numbers.old.items ++ (scans next.now ++ waiting_scans (plans waiting.old.items))) }
    ensures fewer { OnOk result (waiting_plan_nodes (plans waiting.new.items) < waiting_plan_nodes (plans waiting.old.items) + plan_nodes next.now) }
{
    match next {
        Plan::Scan(table) => {
            numbers.push(*table)?;
            Ok(())
        }
        Plan::Filter(source, _cond) => {
            put_one(waiting, source.get())?;
            Ok(())
        }
        Plan::Keep(source, _items) => {
            put_one(waiting, source.get())?;
            Ok(())
        }
        Plan::Join(left, right, _cond) => {
            put_both(waiting, left.get(), right.get())?;
            Ok(())
        }
        Plan::Union(left, right) => {
            put_both(waiting, left.get(), right.get())?;
            Ok(())
        }
        Plan::Except(left, right) => {
            put_both(waiting, left.get(), right.get())?;
            Ok(())
        }
        Plan::Rename(source, _name) => {
            put_one(waiting, source.get())?;
            Ok(())
        }
        Plan::Choose(_expr, left, right) => {
            put_both(waiting, left.get(), right.get())?;
            Ok(())
        }
        Plan::Nothing => Ok(()),
    }
}

#[tactic(auto, using(crate::proofs::WaitingLaws::one_scans, crate::proofs::WaitingLaws::one_plan_nodes))]
fn put_one<'a>(waiting: &mut Vec<&'a Plan>, source: &'a Plan) -> Result<(), Memory>
    ensures scans { OnOk result (waiting_scans (plans waiting.new.items) ≡ scans source.now ++ waiting_scans (plans waiting.old.items)) }
    ensures nodes { OnOk result (waiting_plan_nodes (plans waiting.new.items) ≡ waiting_plan_nodes (plans waiting.old.items) + plan_nodes source.now) }
{
    waiting.push(source)?;
    Ok(())
}

/// Puts the left part before the right one.
#[tactic(auto, using(crate::proofs::WaitingLaws::both_scans, crate::proofs::WaitingLaws::both_plan_nodes))]
fn put_both<'a>(waiting: &mut Vec<&'a Plan>, left: &'a Plan, right: &'a Plan) -> Result<(), Memory>
    ensures scans { OnOk result (waiting_scans (plans waiting.new.items) ≡ scans left.now ++ scans right.now ++ waiting_scans (plans waiting.old.items)) }
    ensures nodes { OnOk result (waiting_plan_nodes (plans waiting.new.items) ≡ waiting_plan_nodes (plans waiting.old.items) + plan_nodes left.now + plan_nodes right.now) }
{
    waiting.push(right)?;
    waiting.push(left)?;
    Ok(())
}
