ghost use Rattle.std.specs.Prelude.{◌≡◌, None, IfOk};
ghost use Rattle.query_meaning.specs.Cases.{case_of};
ghost use Rattle.query_names.specs.NameCases.{Shows};
ghost use Rattle.write_typing.specs.Faults.{fault_case};

use query_meaning::{IllCase, IllTyped, TypeRefused};
use std::alloc::Global;
use values::{ColName, Memory, Name, TryCopy};

/// What is wrong with a write whatever the variant.
#[derive(Clone, Copy)]
pub enum NameFault<'a> {
    NoTable(&'a Name),
    NoColumn(&'a ColName),
    NamedTwice(&'a ColName),
    ValueKind(&'a ColName),
    /// The parameter with this number has no kind.
    NoKind(u16),
}

/// The refusal that shows a fault.
pub fn refusal_of(alloc: Global, fault: NameFault<'_>) -> TypeRefused
    ensures { Shows (fault_case fault.entry) result }
{
    match ill_typed(alloc, fault) {
        Ok(why) => TypeRefused::Ill(why),
        Err(Memory) => TypeRefused::Memory,
    }
}

fn ill_typed(alloc: Global, fault: NameFault<'_>) -> Result<IllTyped, Memory>
    ensures { IfOk result (λ why. (why.config ≡ None) × (case_of why ≡ fault_case fault.entry)) }
{
    match fault {
        NameFault::NoTable(name) => {
            let base = name.copy(alloc)?;
            Ok(ill(IllCase::NoTable, ColName { prefix: None, base }))
        }
        NameFault::NoColumn(name) => {
            let name = name.copy(alloc)?;
            Ok(ill(IllCase::NoColumn, name))
        }
        NameFault::NamedTwice(name) => {
            let name = name.copy(alloc)?;
            Ok(ill(IllCase::NamedTwice, name))
        }
        NameFault::ValueKind(name) => {
            let name = name.copy(alloc)?;
            Ok(ill(IllCase::ValueKind, name))
        }
        NameFault::NoKind(number) => {
            let base = Name::new(alloc);
            Ok(ill(IllCase::ParamKind(number), ColName { prefix: None, base }))
        }
    }
}

/// A case that holds whatever the variant.
fn ill(why: IllCase, name: ColName) -> IllTyped
    ensures config { result.config ≡ None }
    ensures shown { case_of result ≡ record { why = why; name = name } }
{
    IllTyped {
        case: why,
        name,
        config: None,
    }
}
