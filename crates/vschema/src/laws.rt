ghost use Rattle.std.specs.Prelude.{◌≡◌, ◌≢◌, ℕ, List};
ghost use Rattle.vschema.specs.Files.{IsCatalogue};
ghost use Rattle.vschema.specs.Refusals.{Refuses};
ghost use Rattle.vschema.specs.declared.catalog.Catalog.{Catalog};
ghost use Rattle.vschema.specs.declared.catalog.OpeningRow.{OpeningRow};
ghost use Rattle.vschema.specs.declared.columns.TheConstants.{COLUMN_LIMIT};
ghost use Rattle.vschema.specs.declared.refused.CatalogRefused.{CatalogRefused};
ghost use Rattle.vschema.specs.declared.refused.CatalogRefused.TheVariants as refused;
ghost use Rattle.vschema.specs.declared.tables.TheConstants.{TABLE_LIMIT};

/// Laws of files and their catalogues. The call itself does nothing.
#[tactic(auto, using(crate::proofs::FileLaws::one_catalogue, crate::proofs::FileLaws::faultless, crate::proofs::FileLaws::one_refusal))]
pub fn catalogue_laws()
    ensures tables { TABLE_LIMIT ≡ 256 }
    ensures columns { COLUMN_LIMIT ≡ 64 }
    // A file is at most one catalogue, with its opening rows.
    ensures one { (bytes : List ℕ) (catalog other : Catalog) (rows other_rows : List OpeningRow) → IsCatalogue bytes catalog rows → IsCatalogue bytes other other_rows → (catalog ≡ other) × (rows ≡ other_rows) }
    // A file that is a catalogue has no fault.
    ensures faultless { (bytes : List ℕ) (catalog : Catalog) (rows : List OpeningRow) (why : CatalogRefused) → IsCatalogue bytes catalog rows → Refuses why bytes → why ≡ refused.Memory }
    // A file has at most one first fault.
    ensures one_fault { (bytes : List ℕ) (why other : CatalogRefused) → Refuses why bytes → Refuses other bytes → why ≢ refused.Memory → other ≢ refused.Memory → why ≡ other }
{}
