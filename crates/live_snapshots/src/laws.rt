ghost use Rattle.std.specs.Prelude.{◌≡◌, ◌≢◌, ℕ, List, Some};
ghost use Rattle.live_snapshots.specs.Snapshots.{IsLive, IsReached, IsUpTo, Seen, oldest, without};

/// Laws of live snapshots. The call itself does nothing.
pub fn snapshot_laws()
    // Without a snapshot it isn't live, and each other one that was live still is.
    ensures gone { (live : List Seen) (snap : Seen) → IsLive (without snap live) snap → ⊥ }
    ensures others { (live : List Seen) (snap other : Seen) → snap.0 ≢ other.0 → IsLive live other → IsLive (without snap live) other }
    // No live snapshot sees fewer commits than the oldest one, and some live snapshot sees just as many.
    ensures least { (live : List Seen) (snap : Seen) → IsLive live snap → IsUpTo (oldest live) (Some snap.1) }
    ensures reached { (live : List Seen) (s : ℕ) → oldest live ≡ Some s → IsReached live s }
    // Without a snapshot the oldest one is no older.
    ensures rises { (live : List Seen) (snap : Seen) → IsUpTo (oldest live) (oldest (without snap live)) }
{}
