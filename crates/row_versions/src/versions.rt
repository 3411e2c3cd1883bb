ghost use Rattle.std.specs.Prelude.{◌≡◌, [], length, IfErr, IfOk};
ghost use Rattle.row_versions.specs.Changing.{AreChangesOf, IsChanged};
ghost use Rattle.row_versions.specs.Holdings.{IsKept};
ghost use Rattle.row_versions.specs.Prepared.{IsHeld, stored_held};
ghost use Rattle.row_versions.specs.Openings.{AreCounted};
ghost use Rattle.row_versions.specs.Stored.{newest_tables, opened};
ghost use Rattle.table_changes.specs.Changes.{RiseFrom};
ghost use Rattle.version_lists.specs.Versions.{cleaned, rows_seen};

use crate::clean::drop_ended;
use crate::count::kept;
use crate::ended::EndedRow;
use crate::held::{Held, close_all, open_with_room};
use crate::mark::Mark;
use crate::opening::first_marks;
use crate::prepared::Prepared;
use crate::seen::rows_seen;
use plan_tables::Rows;
use std::alloc::Global;
use std::collections::VecDeque;
use std::marker::Model;
use table_changes::TableChange;
use values::{List, Memory};
use vtable::VRow;

/// The rows of stored tables as versions: those that no commit has ended, which can be lent whole, and those that
/// snapshots may still see.
#[derive(Drop)]
pub struct RowVersions {
    newest: Rows,
    marks: List<List<Mark>>,
    ended: VecDeque<EndedRow>,
    next: u64,
    applied: u64,
}

impl Model for RowVersions {
    ghost use Rattle.std.specs.Coded.{codes};
    ghost use Rattle.feature_expr.specs.contracts.expr.Expr as e;
    ghost use Rattle.row_versions.specs.Holdings.{IsHolding, stored};
    ghost use Rattle.row_versions.specs.Stored.{Stored};

    ghost Value = { Stored };

    ghost coded = { Prim.hlevel (codes, e.the_row.coded) };

    ghost view = { λ it. stored it.ended.items it.marks it.newest.tables it.next it.applied };

    ghost invariant = { λ it. IsHolding it.ended.items it.marks it.newest.tables it.next it.applied };
}

#[tactic(auto, using(crate::proofs::HoldingLaws::cleaned_held, crate::proofs::HoldingLaws::cleaned_holding, crate::proofs::HoldingLaws::newest_are, crate::proofs::OpeningLaws::opening_stored, crate::proofs::OpeningLaws::opening_holding))]
impl RowVersions {
    /// The rows of these tables before any commit.
    pub fn new(alloc: Global, rows: Rows) -> Result<RowVersions, Memory>
        requires { AreCounted 0 rows.tables }
        ensures { IfOk result (λ it. it ≡ opened rows.tables) }
    {
        let (marks, next) = first_marks(alloc, rows.tables.as_slice())?;
        Ok(RowVersions {
            newest: rows,
            marks,
            ended: VecDeque::new(alloc),
            next,
            applied: 0,
        })
    }

    /// No tables. It takes no memory.
    pub fn none(alloc: Global) -> RowVersions
        ensures { result ≡ opened [] }
    {
        RowVersions {
            newest: Rows {
                tables: List::new(alloc),
            },
            marks: List::new(alloc),
            ended: VecDeque::new(alloc),
            next: 0,
            applied: 0,
        }
    }

    /// What is held, as versions.
    pub(crate) fn of(held: Held, applied: u64) -> RowVersions
        requires { IsHeld held applied }
        ensures { result ≡ stored_held held applied }
    {
        let Held {
            tables,
            marks,
            ended,
            next,
        } = held;
        RowVersions {
            newest: Rows {
                tables: List::from_vec(tables),
            },
            marks: List::from_vec(marks),
            ended,
            next,
            applied,
        }
    }

    /// Takes all memory that the changes of a commit want, and changes nothing yet. Where there isn't enough, or no number
    /// for the commit or a row is left, the versions come back as they are.
    pub fn prepare(self, alloc: Global, changes: List<TableChange>) -> Result<Prepared, RowVersions>
        requires rising { RiseFrom 0 changes }
        requires places { AreChangesOf changes self }
        ensures ok { IfOk result (λ it. (it.0 ≡ self) × IsChanged changes self it.1) }
        ensures err { IfErr result (λ back. back ≡ self) }
    {
        let RowVersions {
            newest,
            marks,
            ended,
            next,
            applied,
        } = self;
        let Rows { tables } = newest;
        let mut held = Held {
            tables: tables.into_vec(),
            marks: marks.into_vec(),
            ended,
            next,
        };
        let mut waiting = VecDeque::new(alloc);
        match open_with_room(alloc, applied, changes, &mut held, &mut waiting) {
            Ok(()) => Ok(Prepared::of(held, waiting, applied)),
            Err(_no_memory) => {
                close_all(&mut held, waiting);
                Err(RowVersions::of(held, applied))
            }
        }
    }

    /// The tables with their newest rows.
    pub fn newest(&self) -> &Rows
        ensures { result.now.tables ≡ newest_tables 0 self.now.columns self.now.versions }
    {
        &self.newest
    }

    /// The rows of a table that a snapshot of so many commits sees, in the order of their versions. The rows are copied.
    pub fn rows_at(&self, alloc: Global, seen: u64, table: u32) -> Result<List<VRow>, Memory>
        ensures { IfOk result (λ rows. rows ≡ rows_seen seen table self.now.versions) }
    {
        let place = table as usize;
        let marks = self.marks.get(place);
        let rows = self.newest.tables.get(place);
        let seen_rows = rows_seen(alloc, seen, table, &self.ended, marks, rows)?;
        Ok(seen_rows)
    }

    /// Lets go of the versions that ended up to the oldest live snapshot; where none lives, of all that have ended. It
    /// takes no memory, and looks at those and one more.
    pub fn clean(&mut self, oldest: Option<u64>)
        ensures versions { self.new.versions ≡ cleaned oldest self.old.versions }
        ensures columns { self.new.columns ≡ self.old.columns }
        ensures next { self.new.next ≡ self.old.next }
        ensures applied { self.new.applied ≡ self.old.applied }
    {
        drop_ended(&mut self.ended, oldest);
    }

    /// How many versions there are.
    pub fn kept(&self) -> u64
        ensures { result ≡ length self.now.versions }
    {
        kept(self.ended.len(), self.newest.tables.as_slice(), self.next)
    }

    /// How many commits were applied.
    pub fn applied(&self) -> u64
        ensures { result ≡ self.now.applied }
    {
        self.applied
    }

    /// No number stands twice, and each version begins and ends with applied commits.
    pub fn known(&self)
        ensures { IsKept self.now }
    {
        let _ = &self.next;
    }
}
