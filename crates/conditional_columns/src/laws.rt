ghost use Rattle.std.specs.Prelude.{◌≡◌, ◌≤◌, ◌+◌, ◌++◌, [], ℕ, Bool, List, filter, map, max, if◌then◌else◌};
ghost use Rattle.std.specs.List.{sum_by};
ghost use Rattle.feature_expr.specs.Expressions.{weight_of};
ghost use Rattle.feature_expr.specs.Satisfaction.{satisfies};
ghost use Rattle.feature_expr.specs.declared.expr.Expr.{Expr};
ghost use Rattle.feature_expr.specs.declared.expr.Expr as e;
ghost use Rattle.relational_algebra.specs.Columns.{aliased, both_sides, in_order_of, merged, once};
ghost use Rattle.relational_algebra.specs.Items.{kept_in_order, possible_kept};
ghost use Rattle.vra_syntax.specs.declared.items.Item.{Item};
ghost use Rattle.vra_syntax.specs.declared.items.Items.TheVariants.{Listed};
ghost use Rattle.query_meaning.specs.Bounds.{Size, aliased_size, chosen_size, item_weight, joined_column_weight, united_size};
ghost use Rattle.query_meaning.specs.Typing.{columns_at, columns_weight, headings};
ghost use Rattle.query_meaning.specs.declared.typed.TypedColumn.{TypedColumn};
ghost use Rattle.conditional_columns.specs.ColumnLists.{behind_alias, columns_cost, is_some_there, settled};
ghost use Rattle.conditional_columns.specs.FormLists.{chosen_list, joined_list, kept_list, united_list};

/// Laws of the lists that the forms of a query make of their parts' lists. The call itself does nothing.
pub fn form_laws()
    // Settled, the list of a form has the form's possible columns.
    ensures select_possible { (ks : List TypedColumn) (items : List Item) → headings (settled (kept_list ks items)) ≡ possible_kept (Listed items) (headings ks) }
    ensures join_possible { (any_left any_right : Expr) (ls rs : List TypedColumn) → headings (settled (joined_list any_left any_right ls rs)) ≡ merged (headings ls) (headings rs) }
    ensures union_possible { (ls rs : List TypedColumn) → headings (settled (united_list ls rs)) ≡ merged (headings ls) (headings rs) }
    ensures choice_possible { (expr : Expr) (ls rs : List TypedColumn) → headings (settled (chosen_list expr ls rs)) ≡ merged (headings ls) (headings rs) }
    ensures alias_possible { (alias : List ℕ) (ks : List TypedColumn) → headings (settled (map (behind_alias alias) ks)) ≡ once (aliased alias (headings ks)) }
    // In each variant it has the columns of the form's plain type there.
    ensures select_there { (c : List ℕ) (ks : List TypedColumn) (items : List Item) → columns_at c (settled (kept_list ks items)) ≡ kept_in_order (possible_kept (Listed items) (headings ks)) c (Listed items) (columns_at c ks) }
    ensures join_there { (c : List ℕ) (any_left any_right : Expr) (ls rs : List TypedColumn) → satisfies c any_left ≡ is_some_there (columns_at c ls) → satisfies c any_right ≡ is_some_there (columns_at c rs) → columns_at c (settled (joined_list any_left any_right ls rs)) ≡ in_order_of (merged (headings ls) (headings rs)) (both_sides (columns_at c ls) (columns_at c rs)) }
    ensures union_there { (c : List ℕ) (ls rs : List TypedColumn) → columns_at c (settled (united_list ls rs)) ≡ in_order_of (merged (headings ls) (headings rs)) (columns_at c ls ++ columns_at c rs) }
    ensures choice_there { (c : List ℕ) (expr : Expr) (ls rs : List TypedColumn) → columns_at c (settled (chosen_list expr ls rs)) ≡ in_order_of (merged (headings ls) (headings rs)) (if satisfies c expr then columns_at c ls else columns_at c rs) }
    ensures alias_there { (c : List ℕ) (alias : List ℕ) (ks : List TypedColumn) → columns_at c (settled (map (behind_alias alias) ks)) ≡ in_order_of (once (aliased alias (headings ks))) (aliased alias (columns_at c ks)) }
    // What is left of a list in which each name and kind stands once, stands in its order.
    ensures left_in_order { (test : TypedColumn → Bool) (ks : List TypedColumn) → once (headings ks) ≡ headings ks → headings (filter test ks) ≡ in_order_of (headings ks) (headings (filter test ks)) }
    // Where the parts' lists weigh no more than the parts' bounds, it weighs no more than the form's.
    ensures select_weight { (k : ℕ) (ks : List TypedColumn) (items : List Item) → once (headings ks) ≡ headings ks → columns_weight ks ≤ k → columns_weight (settled (kept_list ks items)) ≤ sum_by (item_weight k) items }
    ensures join_weight { (l r : Size) (any_left any_right : Expr) (ls rs : List TypedColumn) → columns_weight ls ≤ l.column_weight → columns_weight rs ≤ r.column_weight → weight_of any_left + 1 ≤ max 2 (columns_cost ls) → (ls ≡ [] → any_left ≡ e.False) → weight_of any_right + 1 ≤ max 2 (columns_cost rs) → (rs ≡ [] → any_right ≡ e.False) → columns_weight (settled (joined_list any_left any_right ls rs)) ≤ joined_column_weight (headings ls) (headings rs) l r }
    ensures alias_weight { (alias : List ℕ) (x : Size) (ks : List TypedColumn) → once (headings ks) ≡ headings ks → columns_weight ks ≤ x.column_weight → columns_weight (settled (map (behind_alias alias) ks)) ≤ (aliased_size (headings ks) alias x).column_weight }
    ensures union_weight { (l r : Size) (ls rs : List TypedColumn) → columns_weight ls ≤ l.column_weight → columns_weight rs ≤ r.column_weight → columns_weight (settled (united_list ls rs)) ≤ (united_size (headings ls) (headings rs) l r).column_weight }
    ensures choice_weight { (expr : Expr) (l r : Size) (ls rs : List TypedColumn) → columns_weight ls ≤ l.column_weight → columns_weight rs ≤ r.column_weight → columns_weight (settled (chosen_list expr ls rs)) ≤ (chosen_size (headings ls) (headings rs) expr l r).column_weight }
{}
