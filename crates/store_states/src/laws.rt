ghost use Rattle.std.specs.Prelude.{◌≡◌, [], Some, slice_get, take, ℕ};
ghost use Rattle.live_snapshots.specs.Snapshots.{IsLive, Seen};
ghost use Rattle.store_states.specs.Promises.{Leaves};
ghost use Rattle.store_states.specs.Stored.{Stored, log_of};
ghost use Rattle.store_states.specs.Views.{IsStore, IsTidy};
ghost use Rattle.stored_versions.specs.Openings.{Opening};
ghost use Rattle.stored_versions.specs.StoredViews.{IsStoredView};
ghost use Rattle.version_lists.specs.Versions.{rows_seen, seen_at};
ghost use Rattle.vschema.specs.declared.catalog.Table.{Table};

/// Laws of the states of a store. The call itself does nothing.
pub fn store_laws()
    // What one call and another leave, both leave.
    ensures leaves { (old mid new : Stored) → Leaves old mid → Leaves mid new → Leaves old new }
    // A snapshot that goes on to live sees the same versions.
    ensures seen { (old new : Stored) (snap : Seen) → IsTidy old → IsTidy new → Leaves old new → IsLive old.live snap → IsLive new.live snap → seen_at snap.1 new.rows.versions ≡ seen_at snap.1 old.rows.versions }
    // The rows that a live snapshot sees of a table are the table after its commits.
    ensures view { (opening : Opening) (store : Stored) (snap : Seen) (number : ℕ) (table : Table) → IsTidy store → IsLive store.live snap → IsStore opening store → slice_get store.catalog.tables number ≡ Some table → IsStoredView opening (take snap.1 (log_of store)) [] number table (rows_seen snap.1 number store.rows.versions) }
{}
