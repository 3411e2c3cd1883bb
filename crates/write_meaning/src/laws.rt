ghost use Rattle.std.specs.Prelude.{◌≡◌, ◌||◌, ℕ, List, Some, true};
ghost use Rattle.condition_sat.specs.Admitted.{IsAdmitted};
ghost use Rattle.feature_expr.specs.declared.expr.Expr.{Expr};
ghost use Rattle.plain_relation.specs.Relations.{Relation, SameRelation};
ghost use Rattle.query_meaning.specs.Bounds.{Size, table_column_weight};
ghost use Rattle.query_meaning.specs.Sources.{table_named};
ghost use Rattle.query_meaning.specs.WriteTyping.{table_name_of};
ghost use Rattle.vra_syntax.specs.declared.write.Write.{Write};
ghost use Rattle.vschema.specs.declared.catalog.Catalog.{Catalog};
ghost use Rattle.vschema.specs.declared.catalog.Table.{Table};
ghost use Rattle.vtable.specs.Answers.{IsAnswerAt, answer_at};
ghost use Rattle.vtable.specs.TableForm.{rows_mention};
ghost use Rattle.vtable.specs.declared.table.VRow.{VRow};
ghost use Rattle.write_meaning.specs.Members.{SameRows};
ghost use Rattle.write_meaning.specs.PlainWrites.{after_write, size_after};
ghost use Rattle.write_meaning.specs.RowWrites.{IsRowWrite, touch_mentions};
ghost use Rattle.write_meaning.specs.StoredTables.{stored_table};
ghost use Rattle.write_meaning.specs.TableViews.{IsTableView};
ghost use Rattle.write_meaning.specs.TakenWrites.{is_taken};

/// Laws of writes. The call itself does nothing.
pub fn write_laws()
    // A write on rows under conditions is, in each admitted variant, the plain write on what the rows are there.
    ensures plain { (model : Expr) (table : Table) (write : Write) (c : List ℕ) → IsAdmitted model c → (old new : List VRow) → IsRowWrite model table write old new → IsAnswerAt c (stored_table table old) → SameRows (answer_at c (stored_table table new)) (after_write c table write (answer_at c (stored_table table old))) }
    // A write that counts takes a view of its table to a view of the table after it, within the bounds after it.
    ensures view { (catalog : Catalog) (table : Table) (write : Write) (old new : List VRow) (there : List ℕ → Relation) (size : Size) → is_taken catalog write ≡ true → table_named catalog.tables (table_name_of write) ≡ Some table → size.column_weight ≡ table_column_weight table → IsRowWrite catalog.model table write old new → IsTableView catalog.model table old there size → IsTableView catalog.model table new (λ c. after_write c table write (there c)) (size_after write size) }
    // What the conditions of the columns may weigh stays.
    ensures columns { (write : Write) (size : Size) → (size_after write size).column_weight ≡ size.column_weight }
    // A feature of the rows after a write is one of the rows before it, of the write or of the conditions of its columns.
    ensures features { (model : Expr) (table : Table) (write : Write) (old new : List VRow) (feature : ℕ) → IsRowWrite model table write old new → rows_mention feature new ≡ true → (rows_mention feature old || touch_mentions feature table write) ≡ true }
    // Relations with the same rows are the same.
    ensures same { (one other : Relation) → SameRows one other → SameRelation one other }
{}
