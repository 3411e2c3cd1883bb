use std::alloc::Global;
use values::{ColName, Kind, Memory, Name, TryCopy, Value};

/// A column is its name and its kind.
#[derive(Debug, PartialEq, Eq, Drop)]
pub struct Column {
    pub name: ColName,
    pub kind: Kind,
}

/// What a row has under a name.
#[derive(Debug, PartialEq, Eq, Drop)]
pub struct Cell {
    pub name: ColName,
    pub value: Value,
}

/// A relation in one variant: a set of columns, and a set of rows, each of which is a map from names to values. Without
/// columns it is absent.
#[derive(Debug, Drop)]
pub struct Relation {
    pub columns: Vec<Column>,
    pub rows: Vec<Vec<Cell>>,
}

impl TryCopy for Column {
    fn copy(&self, alloc: Global) -> Result<Self, Memory> {
        let name = self.name.copy(alloc)?;
        Ok(Column {
            name,
            kind: self.kind,
        })
    }
}

impl Relation {
    pub fn absent(alloc: Global) -> Relation {
        Relation {
            columns: Vec::new(alloc),
            rows: Vec::new(alloc),
        }
    }

    /// The relation of these columns and rows, which is absent where there are no columns.
    pub fn new(alloc: Global, columns: Vec<Column>, rows: Vec<Vec<Cell>>) -> Relation {
        if columns.is_empty() {
            Relation::absent(alloc)
        } else {
            Relation { columns, rows }
        }
    }

    /// Whether the two have the same columns and the same rows.
    pub fn is_same(&self, other: &Relation) -> bool {
        is_same_set(&self.columns, &other.columns)
            && has_rows(&self.rows, &other.rows)
            && has_rows(&other.rows, &self.rows)
    }
}

fn has_rows(rows: &[Vec<Cell>], others: &[Vec<Cell>]) -> bool {
    others.iter().all(|other| has_row(rows, other))
}

pub fn has_row(rows: &[Vec<Cell>], row: &[Cell]) -> bool {
    rows.iter().any(|one| is_same_set(one, row))
}

pub fn is_same_set<T: PartialEq>(left: &[T], right: &[T]) -> bool {
    has_all(left, right) && has_all(right, left)
}

fn has_all<T: PartialEq>(items: &[T], others: &[T]) -> bool {
    others.iter().all(|other| items.contains(other))
}

pub fn has_name(columns: &[Column], name: &ColName) -> bool {
    columns.iter().any(|column| column.name == *name)
}

/// The value that a row has under a name.
pub fn value_in<'a>(row: &'a [Cell], name: &ColName) -> Option<&'a Value> {
    for cell in row {
        if cell.name == *name {
            return Some(&cell.value);
        }
    }
    None
}

/// The name of a stored table's column, which has no prefix.
pub fn bare_name(alloc: Global, name: &Name) -> Result<ColName, Memory> {
    let base = name.copy(alloc)?;
    Ok(ColName { prefix: None, base })
}

/// A name behind the prefix of an alias.
pub fn prefixed(alloc: Global, alias: &Name, name: &ColName) -> Result<ColName, Memory> {
    let prefix = alias.copy(alloc)?;
    let base = name.base.copy(alloc)?;
    Ok(ColName {
        prefix: Some(prefix),
        base,
    })
}

/// Adds a column, if it isn't there.
pub fn add(columns: &mut Vec<Column>, column: Column) -> Result<(), Memory> {
    if !columns.contains(&column) {
        columns.push(column)?;
    }
    Ok(())
}

/// The columns of both, each once.
pub fn merged(left: Vec<Column>, right: Vec<Column>) -> Result<Vec<Column>, Memory> {
    let mut columns = left;
    for column in right {
        add(&mut columns, column)?;
    }
    Ok(columns)
}

/// Adds the columns of a name, under the name that is given.
pub fn pick(
    alloc: Global,
    columns: &[Column],
    name: &ColName,
    given: &ColName,
    into: &mut Vec<Column>,
) -> Result<(), Memory> {
    for column in columns {
        if column.name == *name {
            let name = given.copy(alloc)?;
            into.push(Column {
                name,
                kind: column.kind,
            })?;
        }
    }
    Ok(())
}

/// The columns under the prefix of an alias, in their order, with repeats.
pub fn aliased(alloc: Global, alias: &Name, columns: &[Column]) -> Result<Vec<Column>, Memory> {
    let mut all = Vec::new(alloc);
    for column in columns {
        let name = prefixed(alloc, alias, &column.name)?;
        all.push(Column {
            name,
            kind: column.kind,
        })?;
    }
    Ok(all)
}

/// Each column where it stands first.
pub fn once(alloc: Global, columns: Vec<Column>) -> Result<Vec<Column>, Memory> {
    merged(Vec::new(alloc), columns)
}
