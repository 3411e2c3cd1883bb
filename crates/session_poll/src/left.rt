ghost use Rattle.std.specs.Prelude.{◌≡◌, ◌∷◌, [], MatchOption};

use std::collections::VecDeque;
use std::marker::Model;
use values::List;
use vra_syntax::Statement;

/// The statements of a Query that are still to be run, in their order.
#[derive(Drop)]
pub struct Left {
    statements: VecDeque<Statement>,
}

impl Model for Left {
    ghost use Rattle.std.specs.Prelude.{List as Items};
    ghost use Rattle.std.specs.Coded.{codes, coded_list};
    ghost use Rattle.vra_syntax.specs.contracts.statement.Statement as s;
    ghost use Rattle.vra_syntax.specs.declared.statement.Statement.{Statement};

    ghost Value = { Items Statement };

    ghost coded = { coded_list (Prim.hlevel (codes, s.the_row.coded)) };

    ghost view = { λ it. it.statements.items };
}

impl Left {
    /// It takes no memory.
    pub fn new(statements: List<Statement>) -> Left
        ensures { result ≡ statements }
    {
        Left {
            statements: VecDeque::from_vec(statements.into_vec()),
        }
    }

    /// Takes the first one off.
    pub fn next(&mut self) -> Option<Statement>
        ensures { MatchOption result ((self.old ≡ []) × (self.new ≡ [])) (λ first. self.old ≡ first ∷ self.new) }
    {
        self.statements.pop_front()
    }
}
