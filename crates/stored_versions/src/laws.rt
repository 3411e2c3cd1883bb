ghost use Rattle.std.specs.Prelude.{◌≡◌, ◌++◌, ◌∷◌, [], ◌<◌, ◌≤◌, ℕ, List, Some, None, true, false, slice_get};
ghost use Rattle.std.specs.List.{AllByRecursion};
ghost use Rattle.commit_log.specs.declared.commit.Commit.{Commit};
ghost use Rattle.feature_expr.specs.declared.expr.Expr.{Expr};
ghost use Rattle.query_meaning.specs.Bounds.{table_column_weight};
ghost use Rattle.row_conditions.specs.RowConditions.{columns_weight};
ghost use Rattle.stored_versions.specs.Conflicts.{Conflict, IsConflict, conflict_of};
ghost use Rattle.stored_versions.specs.Databases.{bounds_after, catalog_at, relation_after, sizes_of, variant_database, writes_to};
ghost use Rattle.stored_versions.specs.Logs.{all_taken, taken_from, taken_writes};
ghost use Rattle.stored_versions.specs.Openings.{Opening, opening_rows};
ghost use Rattle.stored_versions.specs.StoredViews.{IsStoredView};
ghost use Rattle.stored_versions.specs.VersionWrites.{Held, IsTableWrite, Writes};
ghost use Rattle.version_lists.specs.Versions.{IsPlaced, Version, cleaned, newest_rows, rows_seen, seen_at};
ghost use Rattle.vra_syntax.specs.declared.write.Write.{Write};
ghost use Rattle.vschema.specs.Variants.{table_at};
ghost use Rattle.vschema.specs.declared.catalog.Catalog.{Catalog};
ghost use Rattle.vschema.specs.declared.catalog.OpeningRow.{OpeningRow};
ghost use Rattle.vschema.specs.declared.catalog.Table.{Table};
ghost use Rattle.vtable.specs.Answers.{answer_at};
ghost use Rattle.vtable.specs.declared.table.VRow.{VRow};
ghost use Rattle.write_meaning.specs.RowWrites.{IsRowWrite};
ghost use Rattle.write_meaning.specs.StoredTables.{stored_columns, stored_table};
ghost use Rattle.write_meaning.specs.TakenWrites.{is_taken};

/// Laws of versions. The call itself does nothing.
pub fn version_laws()
    // A commit leaves what each snapshot before it sees.
    ensures commit { (k : ℕ) (writes : List Write) (catalog : Catalog) (old new : Held) (s : ℕ) → s < k → Writes k catalog writes old new → seen_at s new.versions ≡ seen_at s old.versions }
    // So does clean-up, for the snapshots from the oldest live one on; and where none lives, for the next one.
    ensures cleaned { (least s : ℕ) (versions : List Version) → least ≤ s → seen_at s (cleaned (Some least) versions) ≡ seen_at s versions }
    ensures cleaned_all { (s : ℕ) (versions : List Version) → AllByRecursion (IsPlaced s) versions → seen_at s (cleaned None versions) ≡ seen_at s versions }
    // What a snapshot sees of a table follows from what it sees.
    ensures tables { (s number : ℕ) (one other : List Version) → seen_at s one ≡ seen_at s other → rows_seen s number one ≡ rows_seen s number other }
    // The snapshot of all applied commits sees the newest rows.
    ensures newest { (applied number : ℕ) (versions : List Version) → AllByRecursion (IsPlaced applied) versions → rows_seen applied number versions ≡ newest_rows number versions }
    // A write on versions is the write on the newest rows of its table.
    ensures written { (model : Expr) (number : ℕ) (table : Table) (write : Write) (k : ℕ) (old new : Held) → IsTableWrite model k number table write old new → IsRowWrite model table write (newest_rows number old.versions) (newest_rows number new.versions) }
{}

/// Laws of what a log makes of the tables. The call itself does nothing.
pub fn log_laws()
    // One own write more is one step more of each table, and of its bounds.
    ensures database { (c : List ℕ) (opening : Opening) (commits : List Commit) (writes : List Write) (write : Write) (number : ℕ) → variant_database c opening commits (writes ++ write ∷ []) number ≡ relation_after c number (catalog_at opening commits writes) write (variant_database c opening commits writes number) }
    ensures sizes { (opening : Opening) (commits : List Commit) (writes : List Write) (write : Write) (number : ℕ) → sizes_of opening commits (writes ++ write ∷ []) number ≡ bounds_after number (catalog_at opening commits writes) write (sizes_of opening commits writes number) }
    // So rows that are the table with a number are still that table after a write of another one; and what a write that
    // counts makes of the rows of its table is the table after it.
    ensures other { (opening : Opening) (commits : List Commit) (writes : List Write) (write : Write) (number : ℕ) (table : Table) (rows : List VRow) → writes_to (catalog_at opening commits writes) number write ≡ false → IsStoredView opening commits writes number table rows → IsStoredView opening commits (writes ++ write ∷ []) number table rows }
    ensures written { (opening : Opening) (commits : List Commit) (writes : List Write) (write : Write) (number : ℕ) (table : Table) (old new : List VRow) → is_taken (catalog_at opening commits writes) write ≡ true → slice_get (catalog_at opening commits writes).tables number ≡ Some table → writes_to (catalog_at opening commits writes) number write ≡ true → IsRowWrite (catalog_at opening commits writes).model table write old new → IsStoredView opening commits writes number table old → IsStoredView opening commits (writes ++ write ∷ []) number table new }
    // A commit more is those of its writes that count.
    ensures commit { (opening : Opening) (commits : List Commit) (commit : Commit) → taken_writes opening (commits ++ commit ∷ []) ≡ taken_writes opening commits ++ taken_from (catalog_at opening commits []) commit.writes }
    // Where every write counts, none is left out.
    ensures whole { (writes : List Write) (catalog : Catalog) → all_taken catalog writes ≡ true → taken_from catalog writes ≡ writes }
    // Before any commit a table is, in each variant, its opening rows.
    ensures opening { (c : List ℕ) (number : ℕ) (table : Table) (rows : List OpeningRow) → answer_at c (stored_table table (opening_rows number rows)) ≡ table_at c number table rows }
    // The columns of a stored table are within its bound.
    ensures columns { (table : Table) → columns_weight (stored_columns table) ≤ table_column_weight table }
{}

/// The first conflict of a list of commits is that of the commit rule. The call itself does nothing.
pub fn conflict_laws()
    ensures found { (seen : List Commit) (base : ℕ) (writes : List Write) (it : Conflict) → conflict_of seen base writes ≡ Some it → IsConflict seen base writes it.table it.place }
    ensures is_found { (seen : List Commit) (base : ℕ) (writes : List Write) (table : List ℕ) (place : ℕ) → IsConflict seen base writes table place → conflict_of seen base writes ≡ Some (record { table = table; place = place }) }
{}
