ghost use Rattle.std.specs.Prelude.{◌≡◌, ◌≤◌, [], ℕ, None, Some, List as Items, IsTrue, IfOk, OnOk};
ghost use Rattle.std.specs.BTreeMap.{get};
ghost use Rattle.relational_algebra.specs.Columns.{in_order_of, once};
ghost use Rattle.query_meaning.specs.Typing.{columns_at, headings};
ghost use Rattle.conditional_columns.specs.declared.settling.ColumnKey.{ColumnKey};
ghost use Rattle.conditional_columns.specs.ColumnLists.{columns_cost, columns_mention, put_column, settled, with_either};
ghost use Rattle.conditional_columns.specs.Keys.{key_cmp, key_for, key_place, kind_number as number_of_kind};

use crate::disjunction::either;
use feature_expr::{Expr, List};
use query_meaning::TypedColumn;
use std::alloc::Global;
use std::collections::BTreeMap;
use std::mem;
use values::{ColName, Kind, Memory, TryCopy};

/// Each name and kind once, where it stands first, there where one of its columns is. It takes time in the number of
/// columns and its logarithm.
pub fn settle(alloc: Global, columns: List<TypedColumn>) -> Result<List<TypedColumn>, Memory>
    ensures exact { IfOk result (λ it. it ≡ settled columns) }
    ensures headings { IfOk result (λ it. headings it ≡ once (headings columns)) }
    ensures there { IfOk result (λ it. (c : Items ℕ) → columns_at c it ≡ in_order_of (once (headings columns)) (columns_at c columns)) }
    ensures weight { IfOk result (λ it. columns_cost it ≤ columns_cost columns) }
    ensures known { IfOk result (λ it. (i : ℕ) → IsTrue (columns_mention i it) → IsTrue (columns_mention i columns)) }
{
    let whole = all_settled(alloc, columns)?;
    Ok(whole)
}

fn all_settled(alloc: Global, columns: List<TypedColumn>) -> Result<List<TypedColumn>, Memory>
    ensures { IfOk result (λ it. it ≡ settled columns) }
{
    let mut settling = Settling::new(alloc);
    for column in columns.into_vec() {
        settling = settling.with(alloc, column)?;
    }
    Ok(settling.into_list())
}

/// A column's name and the number of its kind.
#[derive(PartialEq, Eq, PartialOrd, Ord, Drop)]
pub struct ColumnKey {
    name: ColName,
    kind: u8,
}

/// Columns of which each name and kind stands once, and the place of each.
#[derive(Drop)]
pub struct Settling {
    columns: Vec<TypedColumn>,
    places: BTreeMap<ColumnKey, usize>,
    ghost placed: { (key : ColumnKey) → get key_cmp places key ≡ key_place key columns.items },
}

impl Settling {
    fn new(alloc: Global) -> Settling
        ensures { result.columns.items ≡ [] }
    {
        Settling {
            columns: Vec::new(alloc),
            places: BTreeMap::new(alloc),
        }
    }

    fn into_list(self) -> List<TypedColumn>
        ensures { result ≡ self.columns.items }
    {
        let Settling {
            columns,
            places: _places,
        } = self;
        List::from_vec(columns)
    }

    /// These columns and one more.
    fn with(self, alloc: Global, column: TypedColumn) -> Result<Settling, Memory>
        ensures { IfOk result (λ it. it.columns.items ≡ put_column self.columns.items column) }
    {
        let key = key_of(alloc, &column)?;
        match self.place(&key) {
            Some(place) => self.with_known(alloc, place, column),
            None => self.with_new(key, column),
        }
    }

    fn place(&self, key: &ColumnKey) -> Option<usize>
        ensures { result ≡ key_place key.now self.now.columns.items }
    {
        self.places.get(key).copied()
    }

    /// Joins the column with the one that has its name and kind, at this place.
    fn with_known(
        self,
        alloc: Global,
        place: usize,
        column: TypedColumn,
    ) -> Result<Settling, Memory>
        requires { key_place (key_for column) self.columns.items ≡ Some place }
        ensures { IfOk result (λ it. it.columns.items ≡ put_column self.columns.items column) }
    {
        let Settling {
            mut columns,
            places,
        } = self;
        let TypedColumn {
            name: _name,
            kind: _kind,
            cond,
        } = column;
        join_cond(alloc, &mut columns[place], cond)?;
        Ok(Settling { columns, places })
    }

    /// Puts the column last.
    fn with_new(self, key: ColumnKey, column: TypedColumn) -> Result<Settling, Memory>
        requires of { key ≡ key_for column }
        requires fresh { key_place key self.columns.items ≡ None }
        ensures { IfOk result (λ it. it.columns.items ≡ put_column self.columns.items column) }
    {
        let Settling {
            mut columns,
            mut places,
        } = self;
        places.insert(key, columns.len())?;
        columns.push(column)?;
        Ok(Settling { columns, places })
    }
}

/// Lets the column be there where the condition holds too.
fn join_cond(alloc: Global, one: &mut TypedColumn, cond: Expr) -> Result<(), Memory>
    ensures { OnOk result (one.new ≡ with_either one.old cond) }
{
    let before = mem::replace(&mut one.cond, Expr::False);
    one.cond = either(alloc, before, cond)?;
    Ok(())
}

fn key_of(alloc: Global, column: &TypedColumn) -> Result<ColumnKey, Memory>
    ensures { IfOk result (λ it. it ≡ key_for column.now) }
{
    let name = column.name.copy(alloc)?;
    Ok(ColumnKey {
        name,
        kind: kind_number(column.kind),
    })
}

fn kind_number(kind: Kind) -> u8
    ensures { result ≡ number_of_kind kind }
{
    match kind {
        Kind::Int => 0,
        Kind::Text => 1,
        Kind::Bool => 2,
    }
}
