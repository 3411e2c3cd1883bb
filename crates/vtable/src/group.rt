ghost use Rattle.std.specs.Prelude.{◌≡◌, ◌++◌, ◌∷◌, [], true, map, None, Some, IsPermutation, List as Items, IfOk, OnOk};
ghost use Rattle.std.specs.Ordering.{is_eq};
ghost use Rattle.vtable.specs.declared.table.VRow.{VRow};
ghost use Rattle.vtable.specs.TableForm.{same_cells, cells_cmp};
ghost use Rattle.vtable.specs.Passes.{table_row, is_in_order, groups_after, group_of, with_cond};

use feature_expr::{Expr, List, Memory, Value};
use std::alloc::Global;
use std::cmp::Ordering;

/// A row that is cut. Rows are ordered by their cells alone, an absent cell before every value.
#[derive(Drop)]
#[derive_where(PartialEq, Eq, PartialOrd, Ord)]
pub struct CutRow {
    pub cells: Vec<Option<Value>>,
    #[derive_where(skip(EqHashOrd))]
    pub cond: Expr,
}

/// The rows that have one list of cells.
#[derive(Drop)]
pub struct Group {
    pub cells: List<Option<Value>>,
    pub first: Expr,
    pub more: List<Expr>,
}

/// The rows in the order of their cells.
pub fn in_order(rows: Vec<CutRow>) -> Result<Vec<CutRow>, Memory>
    ensures permutation { IfOk result (λ sorted. IsPermutation rows.items sorted.items) }
    ensures order { IfOk result (λ sorted. is_in_order (map table_row sorted.items) ≡ true) }
{
    let mut rows = rows;
    rows.sort()?;
    Ok(rows)
}

fn is_same_cells(one: &[Option<Value>], other: &[Option<Value>]) -> bool
    ensures { result ≡ same_cells one.now other.now }
{
    one.cmp(other) == Ordering::Equal
}

/// Rows in order, those with the same cells together.
pub fn grouped(alloc: Global, rows: Vec<CutRow>) -> Result<Vec<Group>, Memory>
    ensures { IfOk result (λ groups. groups.items ≡ groups_after None (map table_row rows.items)) }
{
    let mut groups = Vec::new(alloc);
    let mut current = None;
    for row in rows {
        let group = put_in_group(alloc, &mut groups, current, row)?;
        current = Some(group);
    }
    let groups = closed(groups, current)?;
    Ok(groups)
}

/// The groups, when no row follows.
fn closed(groups: Vec<Group>, current: Option<Group>) -> Result<Vec<Group>, Memory>
    ensures { IfOk result (λ all. all.items ≡ groups.items ++ groups_after current []) }
{
    let mut groups = groups;
    match current {
        Some(group) => {
            groups.push(group)?;
            Ok(groups)
        }
        None => Ok(groups),
    }
}

/// Puts a row behind those that are grouped already, and answers its group, which may go on.
fn put_in_group(
    alloc: Global,
    groups: &mut Vec<Group>,
    current: Option<Group>,
    row: CutRow,
) -> Result<Group, Memory>
    ensures { IfOk result (λ group. (rest : Items VRow) → groups.new.items ++ groups_after (Some group) rest ≡ groups.old.items ++ groups_after current (table_row row ∷ rest)) }
{
    match current {
        Some(group) => put_after(alloc, groups, group, row),
        None => Ok(new_group(alloc, row)),
    }
}

fn put_after(
    alloc: Global,
    groups: &mut Vec<Group>,
    group: Group,
    row: CutRow,
) -> Result<Group, Memory>
    ensures { IfOk result (λ it. (rest : Items VRow) → groups.new.items ++ groups_after (Some it) rest ≡ groups.old.items ++ groups_after (Some group) (table_row row ∷ rest)) }
{
    let same = is_same_cells(group.cells.as_slice(), &row.cells);
    if same {
        let longer = longer_group(group, row.cond)?;
        Ok(longer)
    } else {
        groups.push(group)?;
        Ok(new_group(alloc, row))
    }
}

fn new_group(alloc: Global, row: CutRow) -> Group
    ensures { result ≡ group_of (table_row row) }
{
    let CutRow { cells, cond } = row;
    Group {
        cells: List::from_vec(cells),
        first: cond,
        more: List::new(alloc),
    }
}

fn longer_group(group: Group, cond: Expr) -> Result<Group, Memory>
    ensures { IfOk result (λ it. it ≡ with_cond group cond) }
{
    let Group { cells, first, more } = group;
    let mut more = more;
    match more.push(cond) {
        Ok(()) => Ok(Group { cells, first, more }),
        Err(_cond) => Err(Memory),
    }
}
