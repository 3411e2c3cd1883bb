ghost use Rattle.std.specs.Prelude.{◌≡◌, [], ◌∷◌, ◌++◌, if◌then◌else◌, Option as Maybe, OnOk};
ghost use Rattle.std.specs.Global.{Vec as TheVec};
ghost use Rattle.row_places.specs.Places.{places_or_none, places_under};
ghost use Rattle.vtable.specs.TableForm.{same_cells};
ghost use Rattle.values.specs.declared.value.Value.{Value as TheValue};

use indexmap::IndexMap;
use std::alloc::Global;
use std::marker::Model;
use values::{Memory, Value};

/// Places of rows by the rows' cells in some columns. Contracts see which places stand under which cells.
#[derive(Drop)]
pub struct Places {
    by_cells: IndexMap<Vec<Option<Value>>, Vec<usize>>,
}

impl Model for Places {
    ghost use Rattle.std.specs.Prelude.{ℕ, Option, map, List as Items};
    ghost use Rattle.std.specs.Coded.{codes};
    ghost use Rattle.values.specs.declared.value.Value.{Value as TheValue};
    ghost use Rattle.values.specs.contracts.value.Value as v;

    ghost Value = { Items (Items (Option TheValue) × Items ℕ) };

    ghost coded = { Prim.hlevel (codes, v.the_row.coded) };

    ghost view = { λ it. map (λ e. (e.0.items, e.1.items)) it.by_cells.entries };
}

impl Places {
    /// It takes no memory.
    pub fn new(alloc: Global) -> Places
        ensures { result ≡ [] }
    {
        Places {
            by_cells: IndexMap::new(alloc),
        }
    }

    /// The places under the cells.
    pub fn find(&self, cells: &Vec<Option<Value>>) -> &[usize]
        ensures { result.now ≡ places_under cells.now.items self.now }
    {
        match self.by_cells.get(cells) {
            Some(places) => places.as_slice(),
            None => &[],
        }
    }

    /// Adds a place under the cells.
    pub fn add(
        &mut self,
        alloc: Global,
        cells: Vec<Option<Value>>,
        place: usize,
    ) -> Result<(), Memory>
        ensures { OnOk result ((key : TheVec (Maybe TheValue)) → places_under key.items self.new ≡ (if same_cells cells.items key.items then places_under key.items self.old ++ place ∷ [] else places_under key.items self.old)) }
    {
        let mut places = self.take(alloc, &cells);
        places.push(place)?;
        self.by_cells.insert(cells, places)?;
        Ok(())
    }

    /// Takes out the places under the cells.
    fn take(&mut self, alloc: Global, cells: &Vec<Option<Value>>) -> Vec<usize>
        ensures taken { result.items ≡ places_under cells.now.items self.old }
        ensures left { (key : TheVec (Maybe TheValue)) → places_under key.items self.new ≡ (if same_cells cells.now.items key.items then [] else places_under key.items self.old) }
    {
        let found = self.by_cells.swap_remove(cells);
        found_or_none(alloc, found)
    }
}

fn found_or_none(alloc: Global, found: Option<Vec<usize>>) -> Vec<usize>
    ensures { result.items ≡ places_or_none found }
{
    match found {
        Some(places) => places,
        None => Vec::new(alloc),
    }
}
