ghost use Rattle.std.specs.Prelude.{◌≡◌, IfOk};

use feature_expr::Expr;
use sqlite_items::Boxed;
use std::alloc::Global;
use values::{Memory, Name};
use vra_syntax::{Cond, Items};

/// How the answers to a query are made: its tables by their numbers, and the operators over them.
///
/// Like a query, a plan grows on its left side: whatever goes over one loops down its left side and recurses to the
/// right alone.
pub enum Plan {
    Scan(u32),
    Filter(Boxed<Plan>, Cond),
    Keep(Boxed<Plan>, Items),
    Join(Boxed<Plan>, Boxed<Plan>, Cond),
    Union(Boxed<Plan>, Boxed<Plan>),
    Except(Boxed<Plan>, Boxed<Plan>),
    Rename(Boxed<Plan>, Name),
    Choose(Expr, Boxed<Plan>, Boxed<Plan>),
    Nothing,
}

impl Drop for Plan {
    fn drop(mut self) {
        loop {
            match self {
                Plan::Scan(_table) => return,
                Plan::Filter(source, _cond) => self = source.into_inner(),
                Plan::Keep(source, _items) => self = source.into_inner(),
                Plan::Join(left, right, _cond) => {
                    let _right = right.into_inner();
                    self = left.into_inner();
                }
                Plan::Union(left, right) => {
                    let _right = right.into_inner();
                    self = left.into_inner();
                }
                Plan::Except(left, right) => {
                    let _right = right.into_inner();
                    self = left.into_inner();
                }
                Plan::Rename(source, _name) => self = source.into_inner(),
                Plan::Choose(_expr, left, right) => {
                    let _right = right.into_inner();
                    self = left.into_inner();
                }
                Plan::Nothing => return,
            }
        }
    }
}

/// The rows of the source of which the condition is true.
pub fn plan_filter(alloc: Global, source: Plan, cond: Cond) -> Result<Plan, Memory>
    ensures { IfOk result (λ it. it ≡ Plan.Filter source cond) }
{
    let source = Boxed::new(alloc, source)?;
    Ok(Plan::Filter(source, cond))
}

/// The columns of the source that the items keep.
pub fn plan_keep(alloc: Global, source: Plan, items: Items) -> Result<Plan, Memory>
    ensures { IfOk result (λ it. it ≡ Plan.Keep source items) }
{
    let source = Boxed::new(alloc, source)?;
    Ok(Plan::Keep(source, items))
}

/// The pairs of rows of which the condition is true.
pub fn plan_join(alloc: Global, left: Plan, right: Plan, cond: Cond) -> Result<Plan, Memory>
    ensures { IfOk result (λ it. it ≡ Plan.Join left right cond) }
{
    let left = Boxed::new(alloc, left)?;
    let right = Boxed::new(alloc, right)?;
    Ok(Plan::Join(left, right, cond))
}

/// The rows of either side.
pub fn plan_union(alloc: Global, left: Plan, right: Plan) -> Result<Plan, Memory>
    ensures { IfOk result (λ it. it ≡ Plan.Union left right) }
{
    let left = Boxed::new(alloc, left)?;
    let right = Boxed::new(alloc, right)?;
    Ok(Plan::Union(left, right))
}

/// The rows of the left side that the right one lacks.
pub fn plan_except(alloc: Global, left: Plan, right: Plan) -> Result<Plan, Memory>
    ensures { IfOk result (λ it. it ≡ Plan.Except left right) }
{
    let left = Boxed::new(alloc, left)?;
    let right = Boxed::new(alloc, right)?;
    Ok(Plan::Except(left, right))
}

/// The source with each column's prefix replaced by the name.
pub fn plan_rename(alloc: Global, source: Plan, name: Name) -> Result<Plan, Memory>
    ensures { IfOk result (λ it. it ≡ Plan.Rename source name) }
{
    let source = Boxed::new(alloc, source)?;
    Ok(Plan::Rename(source, name))
}

/// The left plan where the expression holds, else the right one.
pub fn plan_choose(alloc: Global, expr: Expr, left: Plan, right: Plan) -> Result<Plan, Memory>
    ensures { IfOk result (λ it. it ≡ Plan.Choose expr left right) }
{
    let left = Boxed::new(alloc, left)?;
    let right = Boxed::new(alloc, right)?;
    Ok(Plan::Choose(expr, left, right))
}
