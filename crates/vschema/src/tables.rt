ghost use Rattle.std.specs.Prelude.{◌≡◌, ◌<◌, ◌≤◌, [], ◌∷◌, ◌++◌, List as Items, ℕ, None, length, IfOk};
ghost use Rattle.std.specs.BTreeMap.{get};
ghost use Rattle.std.specs.Ordering.{nat_cmp};
ghost use Rattle.std.specs.Cmp.Lexicographic.{slice_cmp};
ghost use Rattle.vschema.specs.Spelling.{table_place};

use crate::catalog::Table;
use feature_expr::{List, Memory, Name, TryCopy};
use std::alloc::Global;
use std::collections::BTreeMap;

/// The greatest number of tables.
pub const TABLE_LIMIT: usize = 256;

/// The tables of a catalogue in their order, with their numbers by name.
#[derive(Drop)]
pub struct Tables {
    tables: Vec<Table>,
    numbers: BTreeMap<Name, u32>,
    ghost numbered: { (name : Items ℕ) → get (slice_cmp nat_cmp) numbers name ≡ table_place name tables.items },
}

impl Tables {
    pub fn new(alloc: Global) -> Tables
        ensures { result.tables.items ≡ [] }
    {
        Tables {
            tables: Vec::new(alloc),
            numbers: BTreeMap::new(alloc),
        }
    }

    pub fn into_list(self) -> List<Table>
        ensures { result ≡ self.tables.items }
    {
        let Tables {
            tables,
            numbers: _numbers,
        } = self;
        List::from_vec(tables)
    }

    pub fn as_slice(&self) -> &[Table]
        ensures { result.now ≡ self.now.tables.items }
    {
        self.tables.as_slice()
    }

    /// The number of the table with this name.
    pub fn find(&self, name: &Name) -> Option<u32>
        ensures { result ≡ table_place name.now self.now.tables.items }
    {
        self.numbers.get(name).copied()
    }

    /// These tables and another one.
    pub fn with(self, alloc: Global, table: Table) -> Result<Tables, Memory>
        requires fresh { table_place table.name self.tables.items ≡ None }
        requires within { length self.tables.items < TABLE_LIMIT }
        ensures { IfOk result (λ tables. tables.tables.items ≡ self.tables.items ++ table ∷ []) }
    {
        let Tables {
            mut tables,
            mut numbers,
        } = self;
        let name = table.name.copy(alloc)?;
        numbers.insert(name, tables.len() as u32)?;
        tables.push(table)?;
        Ok(Tables { tables, numbers })
    }
}
