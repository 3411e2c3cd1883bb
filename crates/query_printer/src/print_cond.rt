//! The texts of conditions.

ghost use Rattle.std.specs.Prelude.{◌≡◌, ◌+◌, ◌*◌, ◌<◌, ◌++◌, OnOk};
ghost use Rattle.query_printer.specs.Printing.{takes_and, takes_or, cond_at, cond_text, where_text};
ghost use Rattle.query_printer.specs.PrintTasks.{cond_task_text, cond_tasks_text, cond_nodes, cond_task_size, cond_tasks_size};

use crate::print_parts::{close, open, print_choice, print_op, print_operand};
use feature_expr::{Features, Memory};
use std::alloc::Global;
use vra_syntax::Cond;

/// What stands at a place without brackets: an operand takes no chain, a conjunct one of `and`, a disjunct any.
#[derive(Clone, Copy)]
pub enum CondPlace {
    Operand,
    Conjunct,
    Disjunct,
}

/// What is still to be printed: a condition at its place, or what stands behind the left side of one at its place.
#[derive(Clone, Copy)]
enum CondTask<'a> {
    Whole(&'a Cond, CondPlace),
    And(&'a Cond, CondPlace),
    Or(&'a Cond, CondPlace),
    Choice(&'a Cond),
    Close(bool),
}

fn takes_and(place: CondPlace) -> bool
    ensures { result ≡ takes_and place }
{
    !matches!(place, CondPlace::Operand)
}

fn takes_or(place: CondPlace) -> bool
    ensures { result ≡ takes_or place }
{
    matches!(place, CondPlace::Disjunct)
}

/// `where` and a condition, nothing at the condition True.
#[tactic(auto, unfolding(crate::specs::Printing::where_text))]
pub fn print_where(
    alloc: Global,
    cond: &Cond,
    features: &Features,
    text: &mut Vec<u8>,
) -> Result<(), Memory>
    ensures { OnOk result (text.new.items ≡ text.old.items ++ where_text features.now cond.now) }
{
    if matches!(cond, Cond::True) {
        return Ok(());
    }
    text.extend_from_slice(b" where ")?;
    print_cond(alloc, cond, features, text)
}

/// The text of a condition, printed from the left by a list of what is still to be printed.
#[tactic(auto, using(crate::proofs::PrintLaws::cond_tasks_text_push, crate::proofs::PrintLaws::cond_tasks_size_push))]
pub fn print_cond(
    alloc: Global,
    cond: &Cond,
    features: &Features,
    text: &mut Vec<u8>,
) -> Result<(), Memory>
    ensures { OnOk result (text.new.items ≡ text.old.items ++ cond_text features.now cond.now) }
{
    let mut tasks = Vec::new(alloc);
    tasks.push(CondTask::Whole(cond, CondPlace::Disjunct))?;
    while let Some(task) = tasks.pop() {
        print_task(alloc, task, features, &mut tasks, text)?;
    }
    Ok(())
}

fn print_task<'a>(
    alloc: Global,
    task: CondTask<'a>,
    features: &Features,
    tasks: &mut Vec<CondTask<'a>>,
    text: &mut Vec<u8>,
) -> Result<(), Memory>
    ensures printed { OnOk result (text.new.items ++ cond_tasks_text features.now tasks.new.items ≡ text.old.items ++ cond_task_text features.now task.entry ++ cond_tasks_text features.now tasks.old.items) }
    ensures smaller { OnOk result (cond_tasks_size tasks.new.items < cond_task_size task.entry + cond_tasks_size tasks.old.items) }
{
    match task {
        CondTask::Whole(cond, place) => print_node(alloc, cond, place, features, tasks, text),
        CondTask::And(right, place) => {
            text.extend_from_slice(b" and ")?;
            put_task(tasks, CondTask::Close(takes_and(place)), features)?;
            put_task(tasks, CondTask::Whole(right, CondPlace::Operand), features)
        }
        CondTask::Or(right, place) => {
            text.extend_from_slice(b" or ")?;
            put_task(tasks, CondTask::Close(takes_or(place)), features)?;
            put_task(tasks, CondTask::Whole(right, CondPlace::Conjunct), features)
        }
        CondTask::Choice(right) => {
            text.extend_from_slice(b", ")?;
            put_task(tasks, CondTask::Close(false), features)?;
            put_task(tasks, CondTask::Whole(right, CondPlace::Disjunct), features)
        }
        CondTask::Close(is_free) => close(is_free, text),
    }
}

/// The text of a condition up to its left side, whose rest is put on the list.
fn print_node<'a>(
    alloc: Global,
    cond: &'a Cond,
    place: CondPlace,
    features: &Features,
    tasks: &mut Vec<CondTask<'a>>,
    text: &mut Vec<u8>,
) -> Result<(), Memory>
    ensures printed { OnOk result (text.new.items ++ cond_tasks_text features.now tasks.new.items ≡ text.old.items ++ cond_at features.now cond.now place ++ cond_tasks_text features.now tasks.old.items) }
    ensures smaller { OnOk result (cond_tasks_size tasks.new.items < 3 * cond_nodes cond.now + cond_tasks_size tasks.old.items) }
{
    match cond {
        Cond::Cmp(left, op, right) => {
            print_operand(left, text)?;
            print_op(*op, text)?;
            print_operand(right, text)
        }
        Cond::Not(inner) => {
            text.extend_from_slice(b"not ")?;
            put_task(
                tasks,
                CondTask::Whole(inner.get(), CondPlace::Operand),
                features,
            )
        }
        Cond::And(left, right) => {
            open(takes_and(place), text)?;
            put_task(tasks, CondTask::And(right.get(), place), features)?;
            put_task(
                tasks,
                CondTask::Whole(left.get(), CondPlace::Conjunct),
                features,
            )
        }
        Cond::Or(left, right) => {
            open(takes_or(place), text)?;
            put_task(tasks, CondTask::Or(right.get(), place), features)?;
            put_task(
                tasks,
                CondTask::Whole(left.get(), CondPlace::Disjunct),
                features,
            )
        }
        Cond::Choice(expr, left, right) => {
            print_choice(alloc, expr, features, text)?;
            put_task(tasks, CondTask::Choice(right.get()), features)?;
            put_task(
                tasks,
                CondTask::Whole(left.get(), CondPlace::Disjunct),
                features,
            )
        }
        Cond::True => {
            text.extend_from_slice(b"true")?;
            Ok(())
        }
        Cond::False => {
            text.extend_from_slice(b"false")?;
            Ok(())
        }
    }
}

/// Adds what is to be printed next.
#[tactic(auto, using(crate::proofs::PrintLaws::cond_tasks_text_push, crate::proofs::PrintLaws::cond_tasks_size_push))]
fn put_task<'a>(
    tasks: &mut Vec<CondTask<'a>>,
    task: CondTask<'a>,
    features: &Features,
) -> Result<(), Memory>
    ensures text { OnOk result (cond_tasks_text features.now tasks.new.items ≡ cond_task_text features.now task.entry ++ cond_tasks_text features.now tasks.old.items) }
    ensures size { OnOk result (cond_tasks_size tasks.new.items ≡ cond_task_size task.entry + cond_tasks_size tasks.old.items) }
{
    tasks.push(task)?;
    Ok(())
}
