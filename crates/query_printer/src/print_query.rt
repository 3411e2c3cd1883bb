//! The texts of queries.

ghost use Rattle.std.specs.Prelude.{◌≡◌, ◌+◌, ◌*◌, ◌<◌, ◌++◌, OnOk};
ghost use Rattle.query_printer.specs.Printing.{takes_chain, takes_select, takes_join, takes_alias, query_at, query_text};
ghost use Rattle.query_printer.specs.PrintTasks.{query_task_text, query_tasks_text, query_nodes, query_task_size, query_tasks_size};

use crate::print_cond::{print_cond, print_where};
use crate::print_parts::{close, open, print_choice, print_items};
use feature_expr::{Features, Memory, Name};
use std::alloc::Global;
use vra_syntax::{Cond, Query};

/// Where a query stands, and so which ones stand there without brackets. All but the first take a table, `empty` and a
/// choice alone, and besides: a term a select, a source an alias and a chain of `join`, a joined one an alias.
#[derive(Clone, Copy)]
pub enum QueryPlace {
    Whole,
    Term,
    Source,
    Joined,
    Named,
}

/// What is still to be printed: a query at its place, or what stands behind the left side of one at its place.
#[derive(Clone, Copy)]
enum QueryTask<'a> {
    Whole(&'a Query, QueryPlace),
    Where(&'a Cond, QueryPlace),
    Join(&'a Query, &'a Cond, QueryPlace),
    On(&'a Cond, QueryPlace),
    Union(&'a Query, QueryPlace),
    Except(&'a Query, QueryPlace),
    Alias(&'a Name, QueryPlace),
    Choice(&'a Query),
    Close(bool),
}

#[tactic(auto, unfolding(crate::specs::Printing::takes_chain))]
fn takes_chain(place: QueryPlace) -> bool
    ensures { result ≡ takes_chain place }
{
    matches!(place, QueryPlace::Whole)
}

#[tactic(auto, unfolding(crate::specs::Printing::takes_select))]
fn takes_select(place: QueryPlace) -> bool
    ensures { result ≡ takes_select place }
{
    matches!(place, QueryPlace::Whole | QueryPlace::Term)
}

#[tactic(auto, unfolding(crate::specs::Printing::takes_join))]
fn takes_join(place: QueryPlace) -> bool
    ensures { result ≡ takes_join place }
{
    matches!(place, QueryPlace::Source)
}

#[tactic(auto, unfolding(crate::specs::Printing::takes_alias))]
fn takes_alias(place: QueryPlace) -> bool
    ensures { result ≡ takes_alias place }
{
    matches!(place, QueryPlace::Source | QueryPlace::Joined)
}

/// The text of a query, printed from the left by a list of what is still to be printed.
#[tactic(auto, using(crate::proofs::PrintLaws::query_tasks_text_push, crate::proofs::PrintLaws::query_tasks_size_push))]
pub fn print_query(
    alloc: Global,
    query: &Query,
    features: &Features,
    text: &mut Vec<u8>,
) -> Result<(), Memory>
    ensures { OnOk result (text.new.items ≡ text.old.items ++ query_text features.now query.now) }
{
    let mut tasks = Vec::new(alloc);
    tasks.push(QueryTask::Whole(query, QueryPlace::Whole))?;
    while let Some(task) = tasks.pop() {
        print_task(alloc, task, features, &mut tasks, text)?;
    }
    Ok(())
}

fn print_task<'a>(
    alloc: Global,
    task: QueryTask<'a>,
    features: &Features,
    tasks: &mut Vec<QueryTask<'a>>,
    text: &mut Vec<u8>,
) -> Result<(), Memory>
    ensures printed { OnOk result (text.new.items ++ query_tasks_text features.now tasks.new.items ≡ text.old.items ++ query_task_text features.now task.entry ++ query_tasks_text features.now tasks.old.items) }
    ensures smaller { OnOk result (query_tasks_size tasks.new.items < query_task_size task.entry + query_tasks_size tasks.old.items) }
{
    match task {
        QueryTask::Whole(query, place) => print_node(alloc, query, place, features, tasks, text),
        QueryTask::Where(cond, place) => {
            print_where(alloc, cond, features, text)?;
            close(takes_select(place), text)
        }
        QueryTask::Join(right, cond, place) => {
            text.extend_from_slice(b" join ")?;
            put_task(tasks, QueryTask::On(cond, place), features)?;
            put_task(tasks, QueryTask::Whole(right, QueryPlace::Joined), features)
        }
        QueryTask::On(cond, place) => {
            text.extend_from_slice(b" on ")?;
            print_cond(alloc, cond, features, text)?;
            close(takes_join(place), text)
        }
        QueryTask::Union(right, place) => {
            text.extend_from_slice(b" union ")?;
            put_task(tasks, QueryTask::Close(takes_chain(place)), features)?;
            put_task(tasks, QueryTask::Whole(right, QueryPlace::Term), features)
        }
        QueryTask::Except(right, place) => {
            text.extend_from_slice(b" except ")?;
            put_task(tasks, QueryTask::Close(takes_chain(place)), features)?;
            put_task(tasks, QueryTask::Whole(right, QueryPlace::Term), features)
        }
        QueryTask::Alias(name, place) => {
            text.extend_from_slice(b" as ")?;
            text.extend_from_slice(name.as_slice())?;
            close(takes_alias(place), text)
        }
        QueryTask::Choice(right) => {
            text.extend_from_slice(b", ")?;
            put_task(tasks, QueryTask::Close(false), features)?;
            put_task(tasks, QueryTask::Whole(right, QueryPlace::Whole), features)
        }
        QueryTask::Close(is_free) => close(is_free, text),
    }
}

/// The text of a query up to its left side, whose rest is put on the list.
fn print_node<'a>(
    alloc: Global,
    query: &'a Query,
    place: QueryPlace,
    features: &Features,
    tasks: &mut Vec<QueryTask<'a>>,
    text: &mut Vec<u8>,
) -> Result<(), Memory>
    ensures printed { OnOk result (text.new.items ++ query_tasks_text features.now tasks.new.items ≡ text.old.items ++ query_at features.now query.now place ++ query_tasks_text features.now tasks.old.items) }
    ensures smaller { OnOk result (query_tasks_size tasks.new.items < 3 * query_nodes query.now + query_tasks_size tasks.old.items) }
{
    match query {
        Query::Table(name) => {
            text.extend_from_slice(name.as_slice())?;
            Ok(())
        }
        Query::Select(items, source, cond) => {
            open(takes_select(place), text)?;
            text.extend_from_slice(b"select ")?;
            print_items(alloc, items, features, text)?;
            text.extend_from_slice(b" from ")?;
            put_task(tasks, QueryTask::Where(cond, place), features)?;
            put_task(
                tasks,
                QueryTask::Whole(source.get(), QueryPlace::Source),
                features,
            )
        }
        Query::Join(left, right, cond) => {
            open(takes_join(place), text)?;
            put_task(tasks, QueryTask::Join(right.get(), cond, place), features)?;
            put_task(
                tasks,
                QueryTask::Whole(left.get(), QueryPlace::Source),
                features,
            )
        }
        Query::Union(left, right) => {
            open(takes_chain(place), text)?;
            put_task(tasks, QueryTask::Union(right.get(), place), features)?;
            put_task(
                tasks,
                QueryTask::Whole(left.get(), QueryPlace::Whole),
                features,
            )
        }
        Query::Except(left, right) => {
            open(takes_chain(place), text)?;
            put_task(tasks, QueryTask::Except(right.get(), place), features)?;
            put_task(
                tasks,
                QueryTask::Whole(left.get(), QueryPlace::Whole),
                features,
            )
        }
        Query::Alias(source, name) => {
            open(takes_alias(place), text)?;
            put_task(tasks, QueryTask::Alias(name, place), features)?;
            put_task(
                tasks,
                QueryTask::Whole(source.get(), QueryPlace::Named),
                features,
            )
        }
        Query::Choice(expr, left, right) => {
            print_choice(alloc, expr, features, text)?;
            put_task(tasks, QueryTask::Choice(right.get()), features)?;
            put_task(
                tasks,
                QueryTask::Whole(left.get(), QueryPlace::Whole),
                features,
            )
        }
        Query::Empty => {
            text.extend_from_slice(b"empty")?;
            Ok(())
        }
    }
}

/// Adds what is to be printed next.
#[tactic(auto, using(crate::proofs::PrintLaws::query_tasks_text_push, crate::proofs::PrintLaws::query_tasks_size_push))]
fn put_task<'a>(
    tasks: &mut Vec<QueryTask<'a>>,
    task: QueryTask<'a>,
    features: &Features,
) -> Result<(), Memory>
    ensures text { OnOk result (query_tasks_text features.now tasks.new.items ≡ query_task_text features.now task.entry ++ query_tasks_text features.now tasks.old.items) }
    ensures size { OnOk result (query_tasks_size tasks.new.items ≡ query_task_size task.entry + query_tasks_size tasks.old.items) }
{
    tasks.push(task)?;
    Ok(())
}
