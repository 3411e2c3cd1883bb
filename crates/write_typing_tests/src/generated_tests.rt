use crate::given::{model_of, table_names, with_a_name_as_value, write};
use crate::plain::{cases_in, named_cases};
use asked_conditions::Questions;
use condition_sat::Model;
use feature_expr::eval;
use generated_queries::{PARAMETER_KINDS, Random, generated_catalogue, generated_write};
use plain_evaluator::admitted;
use query_meaning::{IllTyped, TypeRefused};
use query_names::TableNames;
use std::alloc::Global;
use std::process::Abort;
use std::test::Fail;
use values::TryCopy;
use vra_syntax::Write;
use vschema::{Catalog, parse_catalog};
use write_typing::type_write;

/// How many catalogues are made, and how many writes over each.
const CATALOGUES: u64 = 50;

const WRITES: u64 = 6;

/// A write is typed where no case holds, whatever the variant or in an admitted one. Else the case that is shown is one
/// that holds, in the variant that is shown.
#[test]
fn generated_writes_are_typed_as_in_each_variant(rt: HostRuntime) -> Result<(), Fail> {
    let alloc = rt.alloc();
    let mut taken = 0_u64;
    for seed in 0..CATALOGUES {
        let mut random = Random::new(2_000 + seed);
        let spelled = generated_catalogue(alloc, &mut random)?;
        let (catalog, rows) = parse_catalog(alloc, spelled.as_bytes())?;
        let tables = table_names(alloc, &catalog, &rows)?;
        let model = model_of(alloc, &catalog)?;
        for _ in 0..WRITES {
            let write = next_write(alloc, &mut random, &catalog)?;
            if is_same(&rt, alloc, &catalog, &model, &tables, &write)? {
                taken = taken.saturating_add(1);
            }
        }
    }
    // Were nearly all taken, or nearly none, the comparison would say little.
    assert!(&rt; 150 < taken && taken < 250, "{taken}");
    Ok(())
}

/// A generated write; seldom a column's name is its last value.
fn next_write(alloc: Global, random: &mut Random, catalog: &Catalog) -> Result<Write, Fail> {
    let text = generated_write(alloc, random, catalog)?;
    let write = write(alloc, text.as_str(), &catalog.features)?;
    if random.one_of(24) {
        let write = with_a_name_as_value(alloc, write)?;
        return Ok(write);
    }
    Ok(write)
}

/// Whether the write is taken.
fn is_same(
    rt: &impl Abort,
    alloc: Global,
    catalog: &Catalog,
    model: &Model,
    tables: &TableNames<'_>,
    write: &Write,
) -> Result<bool, Fail> {
    let wanted = is_well_typed(alloc, catalog, write)?;
    let mut questions = Questions::new(alloc, model);
    let copied = write.copy(alloc)?;
    match type_write(alloc, &mut questions, tables, copied, &PARAMETER_KINDS) {
        Ok(_typed) => {
            assert!(rt; wanted);
            Ok(true)
        }
        Err(TypeRefused::Ill(why)) => {
            assert!(rt; !wanted);
            is_shown(rt, alloc, catalog, write, &why)?;
            Ok(false)
        }
        Err(_) => Err("too wide, or no memory".into()),
    }
}

/// Whether no case holds, whatever the variant or in an admitted one.
fn is_well_typed(alloc: Global, catalog: &Catalog, write: &Write) -> Result<bool, Fail> {
    if !named_cases(alloc, catalog, write)?.is_empty() {
        return Ok(false);
    }
    for config in admitted(alloc, catalog)? {
        if !cases_in(alloc, catalog, write, config)?.is_empty() {
            return Ok(false);
        }
    }
    Ok(true)
}

/// The case holds in the variant that is shown, which is an admitted one, or whatever the variant.
fn is_shown(
    rt: &impl Abort,
    alloc: Global,
    catalog: &Catalog,
    write: &Write,
    why: &IllTyped,
) -> Result<(), Fail> {
    let cases = match why.config {
        None => named_cases(alloc, catalog, write)?,
        Some(config) => {
            assert!(rt; eval(&catalog.model, &config));
            cases_in(alloc, catalog, write, config)?
        }
    };
    assert!(rt;
        cases
            .iter()
            .any(|case| case.why == why.case && case.name == why.name)
    );
    Ok(())
}
