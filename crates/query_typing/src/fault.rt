ghost use Rattle.std.specs.Prelude.{◌≡◌, ◌&&◌, ◌++◌, ℕ, Some, List as Items, IfOk, IfErr, OnOk};
ghost use Rattle.feature_expr.specs.Satisfaction.{satisfies};
ghost use Rattle.query_meaning.specs.Cases.{case};
ghost use Rattle.relational_algebra.specs.Columns.{empty_name, first_name};
ghost use Rattle.query_meaning.specs.Typing.{columns_at};
ghost use Rattle.query_typing.specs.Faults.{IsFoundOfBoth, NoCase, RefusesCase, fault_at, faults_at, name_at};

use crate::refused::CaseRefused;
use asked_conditions::Questions;
use feature_expr::{Config, Expr, and, eval};
use query_meaning::{IllCase, IllTyped, TypedColumn};
use std::alloc::Global;
use values::{ColName, Memory, Name, TryCopy};

/// The name that a case shows.
#[derive(Clone, Copy)]
pub enum ShownName<'a> {
    Of(&'a ColName),
    /// That of the first of these columns that is there in the variant.
    First(&'a [TypedColumn]),
    Empty,
}

/// A case, and the condition under which it holds.
#[derive(Drop)]
pub struct Fault<'a> {
    pub cond: Expr,
    pub case: IllCase,
    pub name: ShownName<'a>,
}

/// Puts a case behind others, if its condition isn't a constant that never holds.
pub fn add_fault<'a>(
    faults: &mut Vec<Fault<'a>>,
    cond: Expr,
    case: IllCase,
    name: ShownName<'a>,
) -> Result<(), Memory>
    ensures { OnOk result ((c : Items ℕ) → faults_at c faults.new.items ≡ faults_at c faults.old.items ++ fault_at c (record { cond = cond; case = «case»; name = name.entry })) }
{
    match &cond {
        Expr::False => Ok(()),
        _ => {
            faults.push(Fault { cond, case, name })?;
            Ok(())
        }
    }
}

/// Asks about each case whether it holds in an admitted variant in which the part is reached.
pub fn ask(
    alloc: Global,
    questions: &mut Questions<'_>,
    reach: &Expr,
    faults: &[Fault<'_>],
) -> Result<(), CaseRefused>
    ensures same { questions.new ≡ questions.old }
    ensures ok { OnOk result (NoCase questions.old reach.now (λ c. faults_at c faults.now)) }
    ensures err { IfErr result (RefusesCase questions.old reach.now (λ c. faults_at c faults.now)) }
{
    for fault in faults {
        ask_one(alloc, questions, reach, fault)?;
    }
    Ok(())
}

#[tactic(auto, using(crate::proofs::FaultLaws::no_fault, crate::proofs::FaultLaws::shows_fault))]
fn ask_one(
    alloc: Global,
    questions: &mut Questions<'_>,
    reach: &Expr,
    fault: &Fault<'_>,
) -> Result<(), CaseRefused>
    ensures same { questions.new ≡ questions.old }
    ensures ok { OnOk result (NoCase questions.old reach.now (λ c. fault_at c fault.now)) }
    ensures err { IfErr result (RefusesCase questions.old reach.now (λ c. fault_at c fault.now)) }
{
    match find_both(alloc, questions, reach, &fault.cond)? {
        None => Ok(()),
        Some(config) => {
            let name = shown_name(alloc, &config, fault.name)?;
            Err(CaseRefused::Ill(IllTyped {
                case: fault.case,
                name,
                config: Some(config),
            }))
        }
    }
}

/// An admitted configuration in which both conditions hold, if there is one.
#[tactic(auto, using(crate::proofs::FaultLaws::both_found, crate::proofs::FaultLaws::true_found))]
fn find_both(
    alloc: Global,
    questions: &mut Questions<'_>,
    reach: &Expr,
    cond: &Expr,
) -> Result<Option<Config>, Memory>
    ensures same { questions.new ≡ questions.old }
    ensures found { IfOk result (IsFoundOfBoth questions.old reach.now cond.now) }
{
    match reach {
        Expr::True => {
            let found = questions.find(cond)?;
            Ok(found)
        }
        _ => {
            let both = and_too(alloc, reach, cond)?;
            let found = questions.find(&both)?;
            Ok(found)
        }
    }
}

/// Holds where both conditions do.
pub fn and_too(alloc: Global, one: &Expr, other: &Expr) -> Result<Expr, Memory>
    ensures { IfOk result (λ it. (c : Items ℕ) → satisfies c it ≡ (satisfies c one.now && satisfies c other.now)) }
{
    let one = one.copy(alloc)?;
    let other = other.copy(alloc)?;
    let both = and(alloc, one, other)?;
    Ok(both)
}

fn shown_name(alloc: Global, config: &Config, name: ShownName<'_>) -> Result<ColName, Memory>
    ensures { IfOk result (λ it. it ≡ name_at config.now name.entry) }
{
    match name {
        ShownName::Of(name) => name.copy(alloc),
        ShownName::First(columns) => first_there(alloc, config, columns),
        ShownName::Empty => Ok(empty_name(alloc)),
    }
}

fn empty_name(alloc: Global) -> ColName
    ensures { result ≡ empty_name }
{
    ColName {
        prefix: None,
        base: Name::new(alloc),
    }
}

/// The name of the first of the columns that is there.
fn first_there(alloc: Global, config: &Config, columns: &[TypedColumn]) -> Result<ColName, Memory>
    ensures { IfOk result (λ it. it ≡ first_name (columns_at config.now columns.now)) }
{
    for column in columns {
        if eval(&column.cond, config) {
            return column.name.copy(alloc);
        }
    }
    Ok(empty_name(alloc))
}
