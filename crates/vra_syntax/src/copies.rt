use crate::bind::bound_statement;
use crate::bind_cond::bound_cond;
use crate::bind_query::bound_query;
use crate::bind_write::bound_write;
use crate::cond::Cond;
use crate::query::Query;
use crate::statement::Statement;
use crate::write::Write;
use feature_expr::{Memory, TryCopy};
use std::alloc::Global;

// A copy is what binding no values gives: every parameter stays.

impl TryCopy for Cond {
    fn copy(&self, alloc: Global) -> Result<Self, Memory> {
        bound_cond(alloc, self, &[])
    }
}

impl TryCopy for Query {
    fn copy(&self, alloc: Global) -> Result<Self, Memory> {
        bound_query(alloc, self, &[])
    }
}

impl TryCopy for Write {
    #[tactic(auto, using(crate::proofs::UnboundLaws::unbound_write))]
    fn copy(&self, alloc: Global) -> Result<Self, Memory> {
        bound_write(alloc, self, &[])
    }
}

impl TryCopy for Statement {
    #[tactic(auto, using(crate::proofs::UnboundLaws::unbound_statement))]
    fn copy(&self, alloc: Global) -> Result<Self, Memory> {
        bound_statement(alloc, self, &[])
    }
}
