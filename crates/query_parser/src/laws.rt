ghost use Rattle.std.specs.Prelude.{◌≡◌, ◌≢◌, ℕ, Bool, List, [], ◌∷◌, ◌++◌, None};
ghost use Rattle.feature_expr.specs.Names.{refusal};
ghost use Rattle.query_printer.specs.Printing.{text_of};
ghost use Rattle.query_parser.specs.Texts.{IsText, IsRefusedText};
ghost use Rattle.query_parser.specs.declared.refused.ParseRefused.{ParseRefused};
ghost use Rattle.query_parser.specs.declared.refused.ParseRefused.TheVariants as refused;
ghost use Rattle.vra_syntax.specs.declared.statement.Statement.{Statement};

/// Laws of texts and their statements. The call itself does nothing.
#[tactic(auto, using(crate::proofs::TextLaws::one_text, crate::proofs::TextLaws::faultless, crate::proofs::TextLaws::one_refusal))]
pub fn statement_laws()
    // A text is at most one list of statements.
    ensures one { (names : List (List ℕ)) (with_params : Bool) (text : List ℕ) (all other : List Statement) → IsText names with_params text all → IsText names with_params text other → all ≡ other }
    // A text that is statements has no fault.
    ensures faultless { (names : List (List ℕ)) (with_params : Bool) (text : List ℕ) (all : List Statement) (why : ParseRefused) → IsText names with_params text all → IsRefusedText names with_params text why → why ≡ refused.Memory }
    // A text has at most one first fault.
    ensures one_fault { (names : List (List ℕ)) (with_params : Bool) (text : List ℕ) (why other : ParseRefused) → IsRefusedText names with_params text why → IsRefusedText names with_params text other → why ≢ refused.Memory → other ≢ refused.Memory → why ≡ other }
    // What a text spells is printed as a text that spells it alone.
    ensures printed { (names : List (List ℕ)) (with_params : Bool) (text : List ℕ) (before after : List Statement) (s : Statement) → refusal names ≡ None → IsText names with_params text (before ++ s ∷ after) → IsText names with_params (text_of names s) (s ∷ []) }
{}
