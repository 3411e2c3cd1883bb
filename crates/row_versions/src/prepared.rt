ghost use Rattle.std.specs.Prelude.{◌≡◌};
ghost use Rattle.row_versions.specs.Prepared.{IsReady, after, before};

use crate::held::{Held, change_all, close_all};
use crate::opened::Opened;
use crate::versions::RowVersions;
use std::collections::VecDeque;
use std::marker::Model;

/// Versions with changes that wait: all memory for them is there, and nothing is changed yet.
#[derive(Drop)]
pub struct Prepared {
    held: Held,
    waiting: VecDeque<Opened>,
    applied: u64,
}

impl Model for Prepared {
    ghost use Rattle.std.specs.Coded.{codes};
    ghost use Rattle.feature_expr.specs.contracts.expr.Expr as e;
    ghost use Rattle.row_versions.specs.Prepared.{IsReady, after, before};
    ghost use Rattle.row_versions.specs.Stored.{Stored};

    ghost Value = { Stored × Stored };

    ghost coded = { Prim.hlevel (codes, e.the_row.coded) };

    // as they are, and as they will be
    ghost view = { λ it. (before it.waiting.items it.held it.applied, after it.waiting.items it.held it.applied) };

    ghost invariant = { λ it. IsReady it.waiting.items it.held it.applied };
}

impl Prepared {
    /// Changes that wait, with all that is to be done.
    pub(crate) fn of(held: Held, waiting: VecDeque<Opened>, applied: u64) -> Prepared
        requires { IsReady waiting.items held applied }
        ensures before { result.0 ≡ before waiting.items held applied }
        ensures after { result.1 ≡ after waiting.items held applied }
    {
        Prepared {
            held,
            waiting,
            applied,
        }
    }

    /// Makes the changes, by moves. It takes no memory.
    pub fn install(self) -> RowVersions
        ensures { result ≡ self.1 }
    {
        let Prepared {
            held,
            waiting,
            applied,
        } = self;
        let mut held = held;
        change_all(applied, &mut held, waiting);
        RowVersions::of(held, applied + 1)
    }

    /// Leaves all as it is. It takes no memory.
    pub fn give_up(self) -> RowVersions
        ensures { result ≡ self.0 }
    {
        let Prepared {
            held,
            waiting,
            applied,
        } = self;
        let mut held = held;
        close_all(&mut held, waiting);
        RowVersions::of(held, applied)
    }
}
