//! The catalogue: the features, tables and opening rows of a product line, as a file spells them.
#![tactic(auto)]

mod catalog;
mod columns;
mod entries;
mod fault;
mod laws;
mod parse;
mod parse_conditions;
mod parse_features;
mod parse_row;
mod parse_table;
mod refused;
mod tables;
mod words;

pub use catalog::{Catalog, Column, OpeningRow, Table};
pub use laws::catalogue_laws;
pub use parse::parse_catalog;
pub use refused::{CatalogRefused, Which};
