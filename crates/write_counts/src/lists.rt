ghost use Rattle.std.specs.Prelude.{◌≡◌, [], ◌∷◌, ◌++◌, length, List as Items, Option as Maybe, OnOk};
ghost use Rattle.values.specs.declared.value.Value.{Value as TheValue};
ghost use Rattle.write_counts.specs.Lists.{AreOnce};

use indexmap::IndexSet;
use std::alloc::Global;
use std::marker::Model;
use values::{Memory, Value};

/// Lists of cells, each once. Contracts see them in the order in which they came.
#[derive(Drop)]
pub struct CellLists {
    lists: IndexSet<Vec<Option<Value>>>,
}

impl Model for CellLists {
    ghost use Rattle.std.specs.Prelude.{Option, map, List as Items};
    ghost use Rattle.std.specs.Coded.{codes};
    ghost use Rattle.values.specs.declared.value.Value.{Value as TheValue};
    ghost use Rattle.values.specs.contracts.value.Value as v;

    ghost Value = { Items (Items (Option TheValue)) };

    ghost coded = { Prim.hlevel (codes, v.the_row.coded) };

    ghost view = { λ it. map (λ list. list.items) it.lists.keys };
}

impl CellLists {
    /// It takes no memory.
    pub fn new(alloc: Global) -> CellLists
        ensures { result ≡ [] }
    {
        CellLists {
            lists: IndexSet::new(alloc),
        }
    }

    /// Adds a list, if it isn't there yet.
    pub fn add(&mut self, cells: Vec<Option<Value>>) -> Result<(), Memory>
        ensures { OnOk result ((all : Items (Items (Maybe TheValue))) → AreOnce all self.old → AreOnce (all ++ cells.items ∷ []) self.new) }
    {
        self.lists.insert(cells)?;
        Ok(())
    }

    pub fn len(&self) -> usize
        ensures { result ≡ length self.now }
    {
        self.lists.len()
    }
}
