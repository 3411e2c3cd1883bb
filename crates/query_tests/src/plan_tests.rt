//! Long plans.

use feature_expr::Expr;
use query_meaning::{
    Plan, plan_choose, plan_except, plan_filter, plan_join, plan_keep, plan_rename, plan_union,
};
use std::alloc::Global;
use std::process::Abort;
use std::test::Fail;
use values::{Memory, Name, TryCopy};
use vra_syntax::{Cond, Items};

/// How many links the chain has.
const LINKS: u64 = 1_000_000;

/// A plan with every form in its chain is copied and dropped without a stack frame for each link.
#[test]
fn a_long_plan_takes_no_stack(rt: HostRuntime) -> Result<(), Fail> {
    let alloc = rt.alloc();
    let mut plan = Plan::Scan(7);
    for link in 0..LINKS {
        plan = linked(alloc, plan, link)?;
    }
    let copy = plan.copy(alloc)?;
    is_chain(&rt, &plan);
    is_chain(&rt, &copy);
    Ok(())
}

/// One link round the plan.
fn linked(alloc: Global, plan: Plan, link: u64) -> Result<Plan, Memory> {
    let right = Plan::Scan(3);
    match link % 7 {
        0 => plan_union(alloc, plan, right),
        1 => plan_except(alloc, plan, right),
        2 => plan_join(alloc, plan, right, Cond::True),
        3 => plan_filter(alloc, plan, Cond::False),
        4 => plan_keep(alloc, plan, Items::All),
        5 => plan_choose(alloc, Expr::True, plan, right),
        _ => plan_rename(alloc, plan, Name::from_slice(alloc, b"a")?),
    }
}

/// Whether the links are those that were made, from the last one to the first.
fn is_chain(rt: &impl Abort, plan: &Plan) {
    let mut at = plan;
    let mut links = LINKS;
    loop {
        let (kind, inner) = match at {
            Plan::Union(left, _right) => (0, left.get()),
            Plan::Except(left, _right) => (1, left.get()),
            Plan::Join(left, _right, _cond) => (2, left.get()),
            Plan::Filter(source, _cond) => (3, source.get()),
            Plan::Keep(source, _items) => (4, source.get()),
            Plan::Choose(_expr, left, _right) => (5, left.get()),
            Plan::Rename(source, _name) => (6, source.get()),
            _ => break,
        };
        links = links.wrapping_sub(1);
        assert_eq!(rt; links % 7, kind);
        at = inner;
    }
    assert_eq!(rt; links, 0);
}
