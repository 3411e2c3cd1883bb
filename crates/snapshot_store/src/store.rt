ghost use Rattle.std.specs.Prelude.{◌≡◌, length};
ghost use Rattle.row_versions.specs.Holdings.{IsKept};
ghost use Rattle.store_states.specs.Views.{IsOpened, IsTidy};

use commit_log::Keeper;
use condition_sat::Model;
use live_snapshots::Live;
use row_versions::RowVersions;
use std::alloc::Global;
use std::marker;
use vschema::Catalog;

/// The rows of a catalogue's tables as versions, over a log of commits, with the snapshots of them that are live.
#[derive(Drop)]
pub struct Store<K: Keeper> {
    pub(crate) alloc: Global,
    pub(crate) keeper: K,
    pub(crate) live: Live,
    pub(crate) versions: RowVersions,
    pub(crate) catalog: Catalog,
    pub(crate) model: Model,
    pub(crate) loop_no: u32,
    pub(crate) next: u64,
}

impl<K: Keeper> marker::Model for Store<K> {
    ghost use Rattle.std.specs.Coded.{codes};
    ghost use Rattle.feature_expr.specs.contracts.expr.Expr as e;
    ghost use Rattle.vra_syntax.specs.contracts.cond.Cond as k;
    ghost use Rattle.store_states.specs.Stored.{Stored, stored};
    ghost use Rattle.row_versions.specs.Holdings.{IsKept};
    ghost use Rattle.store_states.specs.Views.{IsStanding};

    ghost Value = { Stored };

    ghost coded = { Prim.hlevel (codes, e.the_row.coded, k.the_row.coded) };

    ghost view = { λ it. stored (K.kept it.keeper) it.loop_no it.next it.live it.catalog it.versions };

    ghost invariant = { λ it. IsStanding it.model (stored (K.kept it.keeper) it.loop_no it.next it.live it.catalog it.versions) };
}

impl<K: Keeper> Store<K> {
    /// What it was opened over.
    pub fn catalog(&self) -> &Catalog
        ensures { result.now ≡ self.now.catalog }
    {
        &self.catalog
    }

    /// The feature model of its catalogue.
    pub fn model(&self) -> &Model
        ensures { result.now ≡ self.now.catalog.model }
    {
        &self.model
    }

    /// How many versions of rows are kept.
    pub fn kept(&self) -> u64
        ensures { result ≡ length self.now.rows.versions }
    {
        self.versions.kept()
    }

    /// The log that it was opened over. Its snapshots are gone.
    pub fn into_keeper(self) -> K
        ensures { K.kept result ≡ self.moment.kept }
    {
        self.keeper
    }

    /// What holds of every store: it was opened over something, and keeps no version that nobody sees any more.
    pub fn known(&self)
        ensures tidy { IsTidy self.now }
        ensures opened { IsOpened self.now }
        ensures kept { IsKept self.now.rows }
    {
        self.versions.known();
    }
}
