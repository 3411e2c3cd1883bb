ghost use Rattle.std.specs.Prelude.{◌≡◌, List};
ghost use Rattle.vra_types.specs.Check.{RefusesCatalogue, Passes};
ghost use Rattle.vra_types.specs.declared.refused.CheckRefused.{CheckRefused};
ghost use Rattle.vra_types.specs.declared.refused.CheckRefused.TheVariants as refused;
ghost use Rattle.vschema.specs.declared.catalog.Catalog.{Catalog};
ghost use Rattle.vschema.specs.declared.catalog.OpeningRow.{OpeningRow};

/// Laws of the check of a catalogue. The call itself does nothing.
#[tactic(auto, using(crate::proofs::PassLaws::unrefused))]
pub fn check_laws()
    // A catalogue that passes its check isn't refused by it.
    ensures { (catalog : Catalog) (rows : List OpeningRow) (why : CheckRefused) → Passes catalog rows → RefusesCatalogue catalog rows why → why ≡ refused.Memory }
{}
