ghost use Rattle.std.specs.Prelude.{◌≡◌, ◌<◌, ◌^◌, List as Items, ℕ, length, IfOk, OnOk, true};
ghost use Rattle.std.specs.List.{list_all};
ghost use Rattle.std.specs.Option.{option_copied};
ghost use Rattle.std.specs.BTreeMap.{get};
ghost use Rattle.std.specs.Cmp.Lexicographic.{slice_cmp};
ghost use Rattle.std.specs.Ordering.{nat_cmp};
ghost use Rattle.query_meaning.specs.Sources.{number_of, table_named};
ghost use Rattle.query_names.specs.TableNumbers.{first_number};
ghost use Rattle.vschema.specs.Formed.{has_distinct_columns};

use std::alloc::Global;
use std::collections::BTreeMap;
use values::{Memory, Name, TryCopy};
use vschema::Table;

/// The tables of a catalogue, with their numbers by name.
#[derive(Drop)]
pub struct TableNames<'a> {
    tables: &'a [Table],
    numbers: BTreeMap<Name, u32>,
    ghost distinct: { list_all has_distinct_columns tables.now ≡ true },
    ghost numbered: { (name : Items ℕ) → get (slice_cmp nat_cmp) numbers name ≡ number_of tables.now name },
}

impl<'a> TableNames<'a> {
    /// Of two tables of one name the first counts.
    pub fn new(alloc: Global, tables: &'a [Table]) -> Result<TableNames<'a>, Memory>
        requires countable { length tables.now < 2 ^ 32 }
        requires distinct_columns { list_all has_distinct_columns tables.now ≡ true }
        ensures { IfOk result (λ names. names.tables.now ≡ tables.now) }
    {
        let mut numbers = BTreeMap::new(alloc);
        for (place, table) in tables.iter().enumerate() {
            add_name(alloc, &mut numbers, &table.name, place as u32)?;
        }
        Ok(TableNames { tables, numbers })
    }

    /// The table with this name.
    pub fn named(&self, name: &Name) -> Option<&'a Table>
        ensures { option_copied result ≡ table_named self.now.tables.now name.now }
    {
        let number = self.number(name)?;
        self.tables.get(number as usize)
    }

    pub fn tables(&self) -> &'a [Table]
        ensures { result.now ≡ self.now.tables.now }
    {
        self.tables
    }

    /// The number of the table with this name.
    pub fn number(&self, name: &Name) -> Option<u32>
        ensures { result ≡ number_of self.now.tables.now name.now }
    {
        self.numbers.get(name).copied()
    }
}

/// Puts the number under the name, if none is there.
fn add_name(
    alloc: Global,
    numbers: &mut BTreeMap<Name, u32>,
    name: &Name,
    number: u32,
) -> Result<(), Memory>
    ensures { OnOk result ((q : Items ℕ) → get (slice_cmp nat_cmp) numbers.new q ≡ first_number name.now number q (get (slice_cmp nat_cmp) numbers.old q)) }
{
    if numbers.contains_key(name) {
        return Ok(());
    }
    let name = name.copy(alloc)?;
    numbers.insert(name, number)?;
    Ok(())
}
