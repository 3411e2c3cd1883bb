ghost use Rattle.std.specs.Prelude.{◌≡◌, ◌+◌, ◌<◌, ◌≤◌, ◌++◌, ◌∷◌, [], fold, length, map, max, if◌then◌else◌, IfOk, OnOk};
ghost use Rattle.std.specs.List.{list_any};
ghost use Rattle.plan_tables.specs.Tables.{heading, headings};
ghost use Rattle.plan_merges.specs.Merges.{all_ways, count_same, is_taken, last_rank, none_ranked, rank_cond, rank_in, ranked, ranked_headings, repeated_names, way_with, ways_of, ways_ranked, with_name, with_rank, with_ways};
ghost use Rattle.plain_relation.specs.Relations.{same_name};
ghost use Rattle.relational_algebra.specs.Columns.{same_column};

use feature_expr::{Expr, and, not};
use plan_tables::{is_same_column, or_once};
use std::alloc::Global;
use values::{ColName, List, Memory, TryCopy};
use vtable::VColumn;

/// A column, and how many columns before it have its name and kind.
#[derive(Drop)]
pub struct Ranked {
    pub column: VColumn,
    pub rank: usize,
}

/// A way to take columns of which several have one name and kind: of each of some names those of one rank, where the
/// condition holds, and of every other name all.
#[derive(Drop)]
pub struct Way {
    pub cond: Expr,
    pub ranks: List<(ColName, usize)>,
}

#[tactic(auto, using(crate::proofs::WayLaws::ranked_more))]
pub fn with_ranks(alloc: Global, columns: &[VColumn]) -> Result<Vec<Ranked>, Memory>
    ensures { IfOk result (λ it. it.items ≡ ranked columns.now) }
{
    let mut out = Vec::with_capacity(alloc, columns.len())?;
    let mut columns = columns;
    while let Some((column, more)) = columns.split_first() {
        put_ranked(alloc, &mut out, column)?;
        columns = more;
    }
    Ok(out)
}

fn put_ranked(alloc: Global, out: &mut Vec<Ranked>, column: &VColumn) -> Result<(), Memory>
    ensures { OnOk result (out.new.items ≡ out.old.items ++ record { column = column.now; rank = count_same (heading column.now) (ranked_headings out.old.items) } ∷ []) }
{
    let rank = count_same(out.as_slice(), column);
    let column = column.copy(alloc)?;
    out.push(Ranked { column, rank })?;
    Ok(())
}

fn count_same(columns: &[Ranked], key: &VColumn) -> usize
    ensures { result ≡ count_same (heading key.now) (ranked_headings columns.now) }
{
    let mut count = 0;
    for x in columns {
        count += count_one(key, &x.column);
    }
    count
}

fn count_one(key: &VColumn, column: &VColumn) -> usize
    ensures count { result ≡ (if same_column (heading key.now) (heading column.now) then 1 else 0) }
    ensures most { result ≤ 1 }
{
    if is_same_column(key, column) { 1 } else { 0 }
}

/// The names of which some name and kind stands again.
pub fn repeated_names(alloc: Global, columns: &[Ranked]) -> Result<Vec<ColName>, Memory>
    ensures { IfOk result (λ it. it.items ≡ repeated_names columns.now) }
{
    let mut out = Vec::new(alloc);
    let mut columns = columns;
    while let Some((x, more)) = columns.split_first() {
        put_name(alloc, &mut out, x)?;
        columns = more;
    }
    Ok(out)
}

fn put_name(alloc: Global, out: &mut Vec<ColName>, x: &Ranked) -> Result<(), Memory>
    ensures { OnOk result (out.new.items ≡ with_name out.old.items x.now) }
{
    if x.rank == 0 || has_name(out.as_slice(), &x.column.name) {
        return Ok(());
    }
    let name = x.column.name.copy(alloc)?;
    out.push(name)?;
    Ok(())
}

fn has_name(names: &[ColName], name: &ColName) -> bool
    ensures { result ≡ list_any (same_name name.now) names.now }
{
    let mut names = names;
    while let Some((one, more)) = names.split_first() {
        if is_same_name(name, one) {
            return true;
        }
        names = more;
    }
    false
}

pub fn is_same_name(one: &ColName, other: &ColName) -> bool
    ensures { result ≡ same_name one.now other.now }
{
    one == other
}

/// The ways to take the columns: in each variant one of them holds, whose columns are all that are there.
pub fn all_ways(alloc: Global, names: Vec<ColName>, columns: &[Ranked]) -> Result<Vec<Way>, Memory>
    ensures { IfOk result (λ it. it.items ≡ all_ways names.items columns.now) }
{
    let mut ways = every_column(alloc)?;
    let mut names = names;
    while let Some(name) = names.pop() {
        ways = ways_of(alloc, &name, columns, ways.as_slice())?;
    }
    Ok(ways)
}

fn every_column(alloc: Global) -> Result<Vec<Way>, Memory>
    ensures { IfOk result (λ it. it.items ≡ record { cond = Expr.True; ranks = [] } ∷ []) }
{
    let mut ways = Vec::new(alloc);
    ways.push(Way {
        cond: Expr::True,
        ranks: List::new(alloc),
    })?;
    Ok(ways)
}

/// For each rank of the name's columns the ways in which that one is there.
fn ways_of(
    alloc: Global,
    name: &ColName,
    columns: &[Ranked],
    ways: &[Way],
) -> Result<Vec<Way>, Memory>
    ensures { IfOk result (λ it. it.items ≡ ways_of name.now columns.now ways.now) }
{
    let last = last_rank(name, columns);
    let none = none_ranked(alloc, name, columns, last)?;
    let mut out = Vec::new(alloc);
    put_with(alloc, &none, name, 0, ways, &mut out)?;
    put_ranks_from(alloc, name, columns, last, ways, &mut out)?;
    Ok(out)
}

fn put_ranks_from(
    alloc: Global,
    name: &ColName,
    columns: &[Ranked],
    last: usize,
    ways: &[Way],
    out: &mut Vec<Way>,
) -> Result<(), Memory>
    ensures { OnOk result (out.new.items ≡ out.old.items ++ ways_ranked name.now columns.now last ways.now) }
{
    for rank in 0..last {
        let cond = rank_cond(alloc, name, rank + 1, columns)?;
        put_with(alloc, &cond, name, rank + 1, ways, out)?;
    }
    Ok(())
}

/// Where no column of the name with one of so many ranks, from 1, is there.
fn none_ranked(
    alloc: Global,
    name: &ColName,
    columns: &[Ranked],
    last: usize,
) -> Result<Expr, Memory>
    ensures { IfOk result (λ it. it ≡ none_ranked name.now columns.now last) }
{
    let mut out = Expr::True;
    for rank in 0..last {
        let cond = rank_cond(alloc, name, rank + 1, columns)?;
        let cond = not(alloc, cond)?;
        out = and(alloc, out, cond)?;
    }
    Ok(out)
}

/// Where a column of the name and rank is there.
fn rank_cond(alloc: Global, name: &ColName, rank: usize, columns: &[Ranked]) -> Result<Expr, Memory>
    ensures { IfOk result (λ it. it ≡ rank_cond name.now rank columns.now) }
{
    let mut out = Expr::False;
    let mut columns = columns;
    while let Some((x, more)) = columns.split_first() {
        out = with_rank(alloc, name, rank, out, x)?;
        columns = more;
    }
    Ok(out)
}

fn with_rank(
    alloc: Global,
    name: &ColName,
    rank: usize,
    out: Expr,
    x: &Ranked,
) -> Result<Expr, Memory>
    ensures { IfOk result (λ it. it ≡ with_rank name.now rank out x.now) }
{
    if is_same_name(&x.column.name, name) && x.rank == rank {
        return or_once(alloc, out, &x.column.cond);
    }
    Ok(out)
}

/// The greatest rank of a column of the name.
fn last_rank(name: &ColName, columns: &[Ranked]) -> usize
    ensures { result ≡ last_rank name.now columns.now }
{
    let mut last = 0;
    let mut columns = columns;
    while let Some((x, more)) = columns.split_first() {
        last = with_last(name, last, x);
        columns = more;
    }
    last
}

fn with_last(name: &ColName, last: usize, x: &Ranked) -> usize
    ensures { result ≡ (if same_name x.now.column.name name.now then max last x.now.rank else last) }
{
    if is_same_name(&x.column.name, name) {
        last.max(x.rank)
    } else {
        last
    }
}

/// The ways where the condition holds too, with this rank for the name.
fn put_with(
    alloc: Global,
    cond: &Expr,
    name: &ColName,
    rank: usize,
    ways: &[Way],
    out: &mut Vec<Way>,
) -> Result<(), Memory>
    ensures { OnOk result (out.new.items ≡ out.old.items ++ map (way_with cond.now name.now rank) ways.now) }
{
    for way in ways {
        let way = way_with(alloc, cond, name, rank, way)?;
        out.push(way)?;
    }
    Ok(())
}

fn way_with(
    alloc: Global,
    cond: &Expr,
    name: &ColName,
    rank: usize,
    way: &Way,
) -> Result<Way, Memory>
    ensures { IfOk result (λ it. it ≡ way_with cond.now name.now rank way.now) }
{
    let first = cond.copy(alloc)?;
    let rest = way.cond.copy(alloc)?;
    let cond = and(alloc, first, rest)?;
    let mut ranks = Vec::with_capacity(alloc, way.ranks.len())?;
    let name = name.copy(alloc)?;
    ranks.push((name, rank))?;
    put_choices(alloc, way.ranks.as_slice(), &mut ranks)?;
    let ranks = List::from_vec(ranks);
    Ok(Way { cond, ranks })
}

fn put_choices(
    alloc: Global,
    ranks: &[(ColName, usize)],
    out: &mut Vec<(ColName, usize)>,
) -> Result<(), Memory>
    ensures { OnOk result (out.new.items ≡ out.old.items ++ ranks.now) }
{
    for choice in ranks {
        let name = choice.0.copy(alloc)?;
        out.push((name, choice.1))?;
    }
    Ok(())
}

/// Whether a column is taken where the names have these ranks.
pub fn is_taken(ranks: &[(ColName, usize)], x: &Ranked) -> bool
    ensures { result ≡ is_taken ranks.now x.now }
{
    x.rank == rank_in(ranks, &x.column.name)
}

fn rank_in(ranks: &[(ColName, usize)], name: &ColName) -> usize
    ensures { result ≡ rank_in ranks.now name.now }
{
    let mut ranks = ranks;
    while let Some((choice, more)) = ranks.split_first() {
        if is_same_name(&choice.0, name) {
            return choice.1;
        }
        ranks = more;
    }
    0
}
