ghost use Rattle.std.specs.Prelude.{◌≡◌, Some, IfErr, IfOk, OnOk};
ghost use Rattle.query_meaning.specs.WriteTyping.{IsWellTypedWrite, RefusesWrite};
ghost use Rattle.write_typing.specs.Acting.{IsTypedOver, RefusesOver};

use crate::acting::ask_acting;
use crate::fault::{NameFault, refusal_of};
use crate::known::name_fault;
use crate::names::{names_of, table_name};
use asked_conditions::Questions;
use query_meaning::TypeRefused;
use query_names::TableNames;
use query_typing::CaseRefused;
use std::alloc::Global;
use values::{Kind, Memory};
use vra_syntax::Write;
use vschema::Table;

/// A write that is well typed.
#[derive(Drop)]
pub struct TypedWrite {
    write: Write,
}

impl TypedWrite {
    pub fn write(&self) -> &Write
        ensures { result.now ≡ self.now.write }
    {
        &self.write
    }
}

/// Types a write over the tables, where the parameters have these kinds.
///
/// Of several cases a table's name is shown first, then a column's, a name that is given twice, a value of another kind,
/// a parameter without a kind, and last a case of a variant. The time is linear in the values of the write.
pub fn type_write(
    alloc: Global,
    questions: &mut Questions<'_>,
    tables: &TableNames<'_>,
    write: Write,
    kinds: &[Kind],
) -> Result<TypedWrite, TypeRefused>
    ensures same { questions.new ≡ questions.old }
    ensures lent { IfOk result (λ it. it.write ≡ write) }
    ensures typed { OnOk result (IsWellTypedWrite questions.old kinds.now tables.now.tables.now write) }
    ensures refused { IfErr result (RefusesWrite questions.old kinds.now tables.now.tables.now write) }
{
    match check_write(alloc, questions, tables, &write, kinds) {
        Ok(()) => Ok(TypedWrite { write }),
        Err(why) => Err(why),
    }
}

/// Types a write that is lent, as `type_write` does.
#[tactic(auto, using(crate::proofs::ActingLaws::well_typed, crate::proofs::ActingLaws::table_refused))]
pub fn check_write(
    alloc: Global,
    questions: &mut Questions<'_>,
    tables: &TableNames<'_>,
    write: &Write,
    kinds: &[Kind],
) -> Result<(), TypeRefused>
    ensures same { questions.new ≡ questions.old }
    ensures typed { OnOk result (IsWellTypedWrite questions.old kinds.now tables.now.tables.now write.now) }
    ensures refused { IfErr result (RefusesWrite questions.old kinds.now tables.now.tables.now write.now) }
{
    let name = table_name(write);
    match tables.named(name) {
        Some(table) => check_over(alloc, questions, table, write, kinds),
        None => Err(refusal_of(alloc, NameFault::NoTable(name))),
    }
}

#[tactic(auto, using(crate::proofs::ActingLaws::acting_refused))]
fn check_over(
    alloc: Global,
    questions: &mut Questions<'_>,
    table: &Table,
    write: &Write,
    kinds: &[Kind],
) -> Result<(), TypeRefused>
    ensures same { questions.new ≡ questions.old }
    ensures typed { OnOk result (IsTypedOver questions.old kinds.now (Some table.now) write.now) }
    ensures refused { IfErr result (RefusesOver questions.old kinds.now (Some table.now) write.now) }
{
    let names = match names_of(alloc, write) {
        Ok(names) => names,
        Err(Memory) => return Err(TypeRefused::Memory),
    };
    match name_fault(alloc, table, names.as_slice(), write, kinds) {
        Ok(None) => {}
        Ok(Some(fault)) => return Err(refusal_of(alloc, fault)),
        Err(Memory) => return Err(TypeRefused::Memory),
    }
    match ask_acting(alloc, questions, table, names.as_slice(), write, kinds) {
        Ok(()) => Ok(()),
        Err(CaseRefused::Ill(why)) => Err(TypeRefused::Ill(why)),
        Err(CaseRefused::Memory) => Err(TypeRefused::Memory),
    }
}
