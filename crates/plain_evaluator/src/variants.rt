use crate::cases::PlainType;
use crate::names::name_cases;
use crate::variant::Variant;
use feature_expr::{Config, FEATURE_LIMIT, eval};
use std::alloc::Global;
use values::{Kind, List, Memory};
use vra_syntax::Query;
use vschema::Catalog;

/// Every configuration that satisfies the catalogue's model. They are twice as many with each feature.
pub fn admitted(alloc: Global, catalog: &Catalog) -> Result<Vec<Config>, Memory> {
    let mut configs = Vec::new(alloc);
    configs.push(Config::none())?;
    for feature in 0..catalog.features.count().min(FEATURE_LIMIT) {
        let mut more = Vec::new(alloc);
        for config in &configs {
            more.push(config.with(feature))?;
        }
        configs.append(&mut more)?;
    }
    configs.retain(|config| eval(&catalog.model, config));
    Ok(configs)
}

/// Whether the names are in order, and the query has a plain type in each admitted variant.
pub fn is_well_typed(
    alloc: Global,
    catalog: &Catalog,
    kinds: &[Kind],
    query: &Query,
) -> Result<bool, Memory> {
    if !name_cases(alloc, catalog, kinds, query)?.is_empty() {
        return Ok(false);
    }
    let rows = List::new(alloc);
    for config in admitted(alloc, catalog)? {
        let variant = Variant {
            alloc,
            catalog,
            rows: &rows,
            kinds,
            config,
        };
        if let PlainType::Ill(_cases) = variant.plain_type(query)? {
            return Ok(false);
        }
    }
    Ok(true)
}
