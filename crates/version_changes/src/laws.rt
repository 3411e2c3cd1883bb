ghost use Rattle.std.specs.Prelude.{◌≡◌, ◌<◌, ℕ, List};
ghost use Rattle.table_changes.specs.Changes.{RiseFrom, after_changes};
ghost use Rattle.table_changes.specs.declared.change.TableChange.{TableChange};
ghost use Rattle.version_changes.specs.Changes.{with_changes};
ghost use Rattle.version_lists.specs.Versions.{Version, newest_rows, seen_at};

/// Laws of changes of versions. The call itself does nothing.
pub fn change_laws()
    // What a snapshot of fewer commits sees stays as it was.
    ensures seen { (s k next : ℕ) (changes : List TableChange) (versions : List Version) → s < k → seen_at s (with_changes k next changes versions) ≡ seen_at s versions }
    // Each table's newest rows are those after its change.
    ensures newest { (k next number : ℕ) (changes : List TableChange) (versions : List Version) → RiseFrom 0 changes → newest_rows number (with_changes k next changes versions) ≡ after_changes number changes (newest_rows number versions) }
{}
