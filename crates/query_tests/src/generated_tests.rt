//! What holds of every query, tried on generated ones in each variant.

use crate::evaluated::{bound, query};
use feature_expr::{Config, Features};
use generated_queries::{PARAMETER_KINDS, Random, generated_catalogue, generated_query};
use plain_evaluator::{
    Column, PlainType, Relation, Variant, admitted, is_well_typed, name_cases, possible_columns,
};
use std::alloc::Global;
use std::process::Abort;
use std::str;
use std::test::Fail;
use values::List;
use vra_syntax::Query;
use vra_types::check_catalog;
use vschema::{Catalog, OpeningRow, parse_catalog};

/// How many catalogues are made, and how many queries over each.
const CATALOGUES: u64 = 30;

const QUERIES: u64 = 6;

/// A catalogue as it is spelled and as it is read, and a query over it.
#[derive(Drop)]
struct Given<'a> {
    alloc: Global,
    spelled: &'a str,
    catalog: &'a Catalog,
    rows: &'a List<OpeningRow>,
    text: &'a str,
}

/// A generated catalogue passes its check, and most generated queries are well typed, but not all.
#[test]
fn generated_queries_are_what_queries_are(rt: HostRuntime) -> Result<(), Fail> {
    let alloc = rt.alloc();
    let (mut well, mut ill) = (0_u64, 0_u64);
    for seed in 0..CATALOGUES {
        let mut random = Random::new(seed);
        let spelled = generated_catalogue(alloc, &mut random)?;
        let (catalog, rows) = parse_catalog(alloc, spelled.as_bytes())?;
        assert!(rt; check_catalog(alloc, &catalog, &rows).is_ok(), "{spelled}");
        for _ in 0..QUERIES {
            let text = generated_query(alloc, &mut random, &catalog, &rows)?;
            let given = Given {
                alloc,
                spelled: spelled.as_str(),
                catalog: &catalog,
                rows: &rows,
                text: text.as_str(),
            };
            if is_tried(&rt, &given)? {
                well = well.saturating_add(1);
            } else {
                ill = ill.saturating_add(1);
            }
        }
    }
    assert!(rt; ill > 9 && well / 2 > ill, "{well} well typed, {ill} not");
    Ok(())
}

/// Tries the query in each admitted variant, and says whether it is well typed.
fn is_tried(rt: &impl Abort, given: &Given) -> Result<bool, Fail> {
    let alloc = given.alloc;
    let whole = query(alloc, given.text, &given.catalog.features)?;
    let mut is_well = name_cases(alloc, given.catalog, &PARAMETER_KINDS, &whole)?.is_empty();
    let equals = equal_queries(given)?;
    for config in admitted(alloc, given.catalog)? {
        let variant = variant(given, config);
        match variant.plain_type(&whole)? {
            PlainType::Columns(columns) => is_meant(rt, given, &variant, &columns, &equals)?,
            PlainType::Ill(cases) => {
                assert!(rt; !cases.is_empty());
                is_well = false;
            }
        }
    }
    let answer = is_well_typed(alloc, given.catalog, &PARAMETER_KINDS, &whole)?;
    assert_eq!(rt; answer, is_well, "{}", given.text);
    Ok(is_well)
}

fn variant<'a>(given: &Given<'a>, config: Config) -> Variant<'a> {
    Variant {
        alloc: given.alloc,
        catalog: given.catalog,
        rows: given.rows,
        kinds: &PARAMETER_KINDS,
        config,
    }
}

/// The meaning has the columns of the plain type, which are possible ones, and is what equal queries mean.
fn is_meant(
    rt: &impl Abort,
    given: &Given,
    variant: &Variant,
    columns: &[Column],
    equals: &[Query],
) -> Result<(), Fail> {
    let alloc = given.alloc;
    let whole = query(alloc, given.text, &given.catalog.features)?;
    let possible = possible_columns(alloc, given.catalog, &whole)?;
    assert!(rt;
        columns.iter().all(|column| possible.contains(column)),
        "{}",
        given.text
    );
    let relation = variant.meaning(&bound(alloc, whole)?)?;
    assert!(rt; is_relation(columns, &relation), "{}", given.text);
    for equal in equals {
        assert!(rt;
            relation.is_same(&variant.meaning(equal)?),
            "{}",
            given.text
        );
    }
    let plain = plain_meaning(given, &variant.config)?;
    assert!(rt; relation.is_same(&plain), "{}", given.text);
    Ok(())
}

/// Whether the relation has just these columns, no two of one name, and each row one value for each of them.
fn is_relation(columns: &[Column], relation: &Relation) -> bool {
    let are_same = columns.len() == relation.columns.len()
        && columns
            .iter()
            .all(|column| relation.columns.contains(column));
    let are_rows = relation.rows.iter().all(|row| {
        row.len() == columns.len()
            && columns.iter().all(|column| {
                row.iter().any(|cell| cell.name == column.name && cell.value.kind() == column.kind)
            })
    });
    are_same && are_rows
}

/// Forms that mean what the query means that stands for `@`.
const EQUALS: [&str; 6] = [
    "select * from (@)",
    "(@) union (@)",
    "(empty) union (@)",
    "(@) except (empty)",
    "(@) except ((@) except (@))",
    "choice [A] (choice [A] (@, empty), @)",
];

fn equal_queries(given: &Given) -> Result<Vec<Query>, Fail> {
    let mut queries = Vec::new(given.alloc);
    for form in &EQUALS {
        let text = form.replace(given.alloc, "@", given.text)?;
        let query = query(given.alloc, text.as_str(), &given.catalog.features)?;
        queries.push(bound(given.alloc, query)?)?;
    }
    Ok(queries)
}

/// What the query means over a catalogue without variants: in both texts the features are replaced by their truth.
fn plain_meaning(given: &Given, config: &Config) -> Result<Relation, Fail> {
    let alloc = given.alloc;
    let mut spelled = String::new(alloc);
    for line in given.spelled.lines() {
        if line.starts_with("features") {
            spelled.push_str(line)?;
        } else if !line.starts_with("model") {
            spelled.push_str(replaced(alloc, &given.catalog.features, config, line)?.as_str())?;
        }
    }
    let (catalog, rows) = parse_catalog(alloc, spelled.as_bytes())?;
    let text = replaced(alloc, &catalog.features, config, given.text)?;
    let query = bound(alloc, query(alloc, text.as_str(), &catalog.features)?)?;
    let variant = Variant {
        alloc,
        catalog: &catalog,
        rows: &rows,
        kinds: &PARAMETER_KINDS,
        config: Config::none(),
    };
    Ok(variant.meaning(&query)?)
}

/// The names of features are the only capital letters.
fn replaced(
    alloc: Global,
    features: &Features,
    config: &Config,
    text: &str,
) -> Result<String, Fail> {
    let mut all = text.replace(alloc, "@", "")?;
    for feature in 0..features.count() {
        let name = str::from_utf8(features.get(feature).ok_or("no name")?.as_slice())?;
        let truth = if config.holds(feature) {
            "true"
        } else {
            "false"
        };
        all = all.as_str().replace(alloc, name, truth)?;
    }
    Ok(all)
}
