ghost use Rattle.std.specs.Prelude.{◌≡◌, ◌++◌, ◌∷◌, [], ℕ, List, Some, length, take, true};
ghost use Rattle.live_snapshots.specs.Snapshots.{Seen};
ghost use Rattle.session_transactions.specs.Goings.{AreApart, FitsStore, Goes, IsBeside};
ghost use Rattle.session_transactions.specs.Transactions.{snap_of, transaction_of, wrote};
ghost use Rattle.session_transactions.specs.declared.transaction.Transaction.{Transaction as Held};
ghost use Rattle.store_events.specs.Events.{Event, Event as event};
ghost use Rattle.store_states.specs.Stored.{Stored, log_of};
ghost use Rattle.store_states.specs.Views.{IsTidy};
ghost use Rattle.vra_syntax.specs.declared.write.Write.{Write};
ghost use Rattle.write_meaning.specs.TakenWrites.{is_taken};

/// Laws of transactions over one store. The call itself does nothing.
pub fn transaction_laws()
    // One going and another make one.
    ensures goes { (old mid new : Held) (before middle after : Stored) (one two : List Event) → Goes old before one mid middle → Goes mid middle two new after → Goes old before (one ++ two) new after }
    // What keeps its snapshot, and whose own writes count, goes on without the store.
    ensures stays { (old new : Held) (store : Stored) → snap_of new ≡ snap_of old → (FitsStore old store → FitsStore new store) → Goes old store [] new store }
    // One more own write that counts.
    ensures adds { (old new : Held) (store : Stored) (write : Write) → FitsStore old store → is_taken store.catalog write ≡ true → transaction_of new ≡ wrote write (transaction_of old) → snap_of new ≡ snap_of old → FitsStore new store }
    // Rows are read over the commits of its snapshot.
    ensures viewed { (it : Held) (store : Stored) (snap : Seen) → FitsStore it store → IsTidy store → snap_of it ≡ Some snap → Goes it store (event.Viewed (take snap.1 (log_of store)) ∷ []) it store }
    ensures seen { (it : Held) (store : Stored) (snap : Seen) → FitsStore it store → IsTidy store → snap_of it ≡ Some snap → length (take snap.1 (log_of store)) ≡ snap.1 }
    // Another session's transaction can go on after it, too.
    ensures other { (old new other : Held) (before after : Stored) (events : List Event) → Goes old before events new after → IsBeside old other before → IsBeside new other after }
{}
