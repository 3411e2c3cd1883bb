ghost use Rattle.std.specs.Prelude.{◌≡◌, ◌≢◌, ℕ, ◌≤◌, List, map, None};
ghost use Rattle.feature_expr.specs.declared.config.TheConstants.{FEATURE_LIMIT};
ghost use Rattle.feature_expr.specs.declared.expr.Expr.{Expr};
ghost use Rattle.word_tokens.specs.declared.words.TheConstants.{NAME_LIMIT, RESERVED};
ghost use Rattle.feature_expr.specs.declared.parse.ExprRefused.{ExprRefused};
ghost use Rattle.feature_expr.specs.declared.parse.TheConstants.{NESTING_LIMIT};
ghost use Rattle.feature_expr.specs.declared.parse.ExprRefused.TheVariants as refused;
ghost use Rattle.word_tokens.specs.declared.token.TheConstants.{PARAMETER_LIMIT};
ghost use Rattle.word_tokens.specs.declared.token.Token.{Token};
ghost use Rattle.feature_expr.specs.ExprTexts.{IsText, IsRefusedText};
ghost use Rattle.word_tokens.specs.Words.{reserved_words};
ghost use Rattle.feature_expr.specs.Names.{refusal};
ghost use Rattle.feature_expr.specs.Printing.{HasNames, text_nesting, text_of, open_brackets};
ghost use Rattle.word_tokens.specs.Tokens.{AreTokens, HasTokens};

/// Laws of texts and their expressions. The call itself does nothing.
#[tactic(auto, using(crate::proofs::OneLaws::one_tokens))]
pub fn expression_laws()
    ensures limits { (NAME_LIMIT ≡ 63) × (FEATURE_LIMIT ≡ 64) × (PARAMETER_LIMIT ≡ 1024) × (NESTING_LIMIT ≡ 64) }
    ensures reserved { map (λ word. word.now) RESERVED ≡ reserved_words }
    // A text has tokens, and one list of them.
    ensures split { (text : List ℕ) → HasTokens text }
    ensures tokens { (text : List ℕ) (some other : List Token) → AreTokens text some → AreTokens text other → some ≡ other }
    // A text is at most one expression, whatever the limits on its nesting.
    ensures one { (names : List (List ℕ)) (text : List ℕ) (most least : ℕ) (expr other : Expr) → IsText names text most expr → IsText names text least other → expr ≡ other }
    // A text that is an expression has no fault.
    ensures faultless { (names : List (List ℕ)) (text : List ℕ) (most : ℕ) (expr : Expr) (why : ExprRefused) → IsText names text most expr → IsRefusedText names text most why → why ≡ refused.Memory }
    // A text has at most one first fault.
    ensures one_fault { (names : List (List ℕ)) (text : List ℕ) (most : ℕ) (why other : ExprRefused) → IsRefusedText names text most why → IsRefusedText names text most other → why ≢ refused.Memory → other ≢ refused.Memory → why ≡ other }
    // The text of an expression is that expression, where it nests within the limit and each feature has a name.
    ensures printed { (names : List (List ℕ)) (most : ℕ) (expr : Expr) → refusal names ≡ None → HasNames names expr → text_nesting expr ≤ most → IsText names (text_of names expr) most expr }
    // What is read within a limit is printed within it.
    ensures again { (names : List (List ℕ)) (text : List ℕ) (most : ℕ) (expr : Expr) → refusal names ≡ None → IsText names text most expr → IsText names (text_of names expr) most expr }
    // No text of an expression has fewer brackets than the printed one.
    ensures fewest { (names : List (List ℕ)) (text : List ℕ) (most : ℕ) (expr : Expr) (tokens printed : List Token) → refusal names ≡ None → IsText names text most expr → AreTokens text tokens → AreTokens (text_of names expr) printed → open_brackets (text_of names expr) printed ≤ open_brackets text tokens }
{}
