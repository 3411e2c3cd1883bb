//! What is read of a store.
ghost use Rattle.std.specs.Prelude.{◌≡◌, ◌≢◌, ◌<◌, ◌≤◌, Some, true, length, slice_get, take, IfOk, MatchOption};
ghost use Rattle.live_snapshots.specs.Snapshots.{IsLive};
ghost use Rattle.own_writes.specs.Carried.{Carries};
ghost use Rattle.query_meaning.specs.WriteTyping.{table_name_of};
ghost use Rattle.snapshot_store.specs.Parts.{AreRowsAt};
ghost use Rattle.store_states.specs.Reads.{IsRowsAt, seen_tables};
ghost use Rattle.stored_versions.specs.Logs.{all_taken};

use crate::store::Store;
use asked_conditions::Questions;
use commit_log::Keeper;
use live_snapshots::Snap;
use own_writes::rows_after;
use plan_tables::Rows;
use query_names::TableNames;
use row_writes::stored_columns;
use values::{List, Memory, Name};
use vra_syntax::Write;
use vschema::Table;
use vtable::{VRow, VTable};

impl<K: Keeper> Store<K> {
    /// The tables with the rows that the snapshot sees, lent whole, where it sees all that was applied. Else each table has
    /// to be asked for.
    pub fn newest(&self, snap: &Snap) -> Option<&Rows>
        requires { IsLive self.now.live snap.now }
        ensures { MatchOption result (snap.now.1 ≢ self.now.rows.applied) (λ rows. rows.now.tables ≡ seen_tables snap.now.1 0 self.now.catalog.tables self.now.rows.versions) }
    {
        self.versions.known();
        if snap.number() == self.versions.applied() {
            Some(self.versions.newest())
        } else {
            None
        }
    }

    /// A table after the snapshot's commits and the first of these writes.
    pub fn rows_at(
        &self,
        snap: &Snap,
        table: u32,
        writes: &List<Write>,
        count: usize,
    ) -> Result<VTable, Memory>
        requires live { IsLive self.now.live snap.now }
        requires table { table < length self.now.catalog.tables }
        requires count { count ≤ length writes.now }
        requires taken { all_taken self.now.catalog writes.now ≡ true }
        ensures { IfOk result (IsRowsAt self.now snap.now table (take count writes.now)) }
    {
        let (first, _later) = writes.as_slice().split_at(count);
        let it = &self.catalog.tables.as_slice()[table as usize];
        let columns = stored_columns(self.alloc, it)?;
        let rows = self.rows_of(snap, table, it, first)?;
        Ok(VTable { columns, rows })
    }

    /// The rows of a table after the snapshot's commits and these writes.
    fn rows_of(
        &self,
        snap: &Snap,
        number: u32,
        table: &Table,
        writes: &[Write],
    ) -> Result<List<VRow>, Memory>
        requires live { IsLive self.now.live snap.now }
        requires table { slice_get self.now.catalog.tables number ≡ Some table.now }
        requires taken { all_taken self.now.catalog writes.now ≡ true }
        ensures { IfOk result (AreRowsAt self.now snap.now number table.now writes.now) }
    {
        let rows = self.versions.rows_at(self.alloc, snap.number(), number)?;
        if writes.is_empty() {
            return Ok(rows);
        }
        self.written(number, table, writes, rows)
    }

    /// The rows of a table after these writes.
    fn written(
        &self,
        number: u32,
        table: &Table,
        writes: &[Write],
        rows: List<VRow>,
    ) -> Result<List<VRow>, Memory>
        requires table { slice_get self.now.catalog.tables number ≡ Some table.now }
        ensures { IfOk result (λ it. Carries self.now.catalog.model self.now.catalog.tables number table.now writes.now rows it) }
    {
        let mut questions = Questions::new(self.alloc, &self.model);
        let tables = TableNames::new(self.alloc, self.catalog.tables.as_slice())?;
        rows_after(
            self.alloc,
            &mut questions,
            &tables,
            number,
            table,
            writes,
            rows,
        )
    }
}
