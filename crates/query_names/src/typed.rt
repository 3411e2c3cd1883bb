ghost use Rattle.std.specs.Prelude.{◌≡◌, ◌≤◌, length, IfOk};
ghost use Rattle.query_meaning.specs.Plans.{bound_plan, param_in_plan};

use crate::plan_binding::bound_plan;
use query_meaning::{Plan, TableColumns, TypedColumn};
use std::alloc::Global;
use values::{List, Memory, TryCopy, Value};

/// What typing gives of a query: the columns of its answers, its plan, and the tables that the plan scans.
#[derive(Drop)]
pub struct Typed {
    columns: List<TypedColumn>,
    plan: Plan,
    tables: List<TableColumns>,
}

impl Typed {
    pub fn new(columns: List<TypedColumn>, plan: Plan, tables: List<TableColumns>) -> Typed
        ensures columns { result.columns ≡ columns }
        ensures plan { result.plan ≡ plan }
        ensures tables { result.tables ≡ tables }
    {
        Typed {
            columns,
            plan,
            tables,
        }
    }

    /// The columns of the answers, in their order.
    pub fn columns(&self) -> &List<TypedColumn>
        ensures { result.now ≡ self.now.columns }
    {
        &self.columns
    }

    pub fn plan(&self) -> &Plan
        ensures { result.now ≡ self.now.plan }
    {
        &self.plan
    }

    /// The tables that the plan scans, ascending and each once, as they stand in the catalogue.
    pub fn tables(&self) -> &List<TableColumns>
        ensures { result.now ≡ self.now.tables }
    {
        &self.tables
    }

    pub fn into_parts(self) -> (List<TypedColumn>, Plan, List<TableColumns>)
        ensures columns { result.0 ≡ self.columns }
        ensures plan { result.1 ≡ self.plan }
        ensures tables { result.2 ≡ self.tables }
    {
        let Typed {
            columns,
            plan,
            tables,
        } = self;
        (columns, plan, tables)
    }
}

/// A typed query with each parameter of its plan that has a value replaced by it: number 1 by the first, and so on.
#[tactic(auto, using(crate::proofs::BoundPlanLaws::no_parameter_left))]
pub fn bind_plan(alloc: Global, typed: &Typed, values: &List<Value>) -> Result<Typed, Memory>
    ensures bound { IfOk result (λ it. it.plan ≡ bound_plan values.now typed.now.plan) }
    ensures whole { IfOk result (λ it. param_in_plan typed.now.plan ≤ length values.now → param_in_plan it.plan ≡ 0) }
    ensures columns { IfOk result (λ it. it.columns ≡ typed.now.columns) }
    ensures tables { IfOk result (λ it. it.tables ≡ typed.now.tables) }
{
    let columns = typed.columns.copy(alloc)?;
    let plan = bound_plan(alloc, &typed.plan, values.as_slice())?;
    let tables = typed.tables.copy(alloc)?;
    Ok(Typed::new(columns, plan, tables))
}
