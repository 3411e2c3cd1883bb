ghost use Rattle.std.specs.Prelude.{◌≡◌, ◌<◌, ◌^◌, length, IfErr, IfOk};
ghost use Rattle.opened_tables.specs.Opened.{opened_tables};
ghost use Rattle.row_versions.specs.Stored.{opened};
ghost use Rattle.snapshot_store.specs.declared.answers.OpenRefused.TheVariants as refused;
ghost use Rattle.snapshot_store.specs.Opening.{IsFresh, RefusesOpen};
ghost use Rattle.store_states.specs.Promises.{Opens};
ghost use Rattle.vra_types.specs.Check.{Passes};
ghost use Rattle.vschema.specs.Formed.{IsFormed};

use crate::answers::OpenRefused;
use crate::store::Store;
use commit_log::{Keeper, Refresh};
use condition_sat::Model;
use feature_expr::List;
use live_snapshots::Live;
use opened_tables::opened_tables;
use row_versions::RowVersions;
use std::alloc::Global;
use values::Memory;
use vschema::{Catalog, OpeningRow};

impl<K: Keeper + Drop> Store<K> {
    /// A store over what a log of commits makes of a catalogue and its opening rows, which passed their check. Where it is
    /// refused the keeper is dropped.
    pub fn open(
        alloc: Global,
        catalog: Catalog,
        rows: List<OpeningRow>,
        model: Model,
        keeper: K,
        loop_no: u32,
    ) -> Result<Store<K>, OpenRefused>
        requires model { model ≡ catalog.model }
        requires formed { IsFormed catalog rows }
        requires passes { Passes catalog rows }
        ensures { IfOk result (λ store. Opens (record { catalog = catalog; rows = rows }) (K.kept keeper) loop_no store) }
    {
        match Store::over(alloc, catalog, rows, model, keeper, loop_no) {
            Ok(store) => Ok(store),
            Err((why, _keeper)) => Err(why),
        }
    }
}

impl<K: Keeper> Store<K> {
    /// A store over what a log of commits makes of a catalogue and its opening rows, which passed their check. Where it is
    /// refused the keeper comes back.
    pub fn over(
        alloc: Global,
        catalog: Catalog,
        rows: List<OpeningRow>,
        model: Model,
        keeper: K,
        loop_no: u32,
    ) -> Result<Store<K>, (OpenRefused, K)>
        requires model { model ≡ catalog.model }
        requires formed { IsFormed catalog rows }
        requires passes { Passes catalog rows }
        ensures opens { IfOk result (λ store. Opens (record { catalog = catalog; rows = rows }) (K.kept keeper) loop_no store) }
        ensures refused { IfErr result (λ it. RefusesOpen (K.kept keeper) it.0 (K.kept it.1)) }
    {
        let mut keeper = keeper;
        match keeper.refresh() {
            Refresh::Seen(_seen) => {}
            Refresh::Failed => return Err((OpenRefused::KeeperFault, keeper)),
            Refresh::Memory => return Err((OpenRefused::Memory, keeper)),
        }
        let mut store = Store::fresh(alloc, catalog, rows, model, keeper, loop_no)?;
        match store.apply_seen() {
            Ok(()) => Ok(store),
            Err(Memory) => Err((OpenRefused::Memory, store.into_keeper())),
        }
    }

    /// A store of the opening rows, to which no commit is applied yet.
    fn fresh(
        alloc: Global,
        catalog: Catalog,
        rows: List<OpeningRow>,
        model: Model,
        keeper: K,
        loop_no: u32,
    ) -> Result<Store<K>, (OpenRefused, K)>
        requires model { model ≡ catalog.model }
        requires formed { IsFormed catalog rows }
        requires passes { Passes catalog rows }
        ensures fresh { IfOk result (λ store. IsFresh (record { catalog = catalog; rows = rows }) (K.kept keeper) loop_no store) }
        ensures refused { IfErr result (λ it. (it.0 ≡ refused.Memory) × (K.kept it.1 ≡ K.kept keeper)) }
    {
        let versions = match first_versions(alloc, &catalog, &model, rows.as_slice()) {
            Ok(versions) => versions,
            Err(Memory) => return Err((OpenRefused::Memory, keeper)),
        };
        let next = keeper.seen();
        Ok(Store {
            alloc,
            keeper,
            live: Live::new(alloc),
            versions,
            catalog,
            model,
            loop_no,
            next,
        })
    }
}

/// The rows that are there in some variant, as the first versions.
#[tactic(auto, using(opened_tables::proofs::OpenedLaws::opened_counted))]
fn first_versions(
    alloc: Global,
    catalog: &Catalog,
    model: &Model,
    rows: &[OpeningRow],
) -> Result<RowVersions, Memory>
    requires countable { length catalog.now.tables < 2 ^ 32 }
    ensures { IfOk result (λ it. it ≡ opened (opened_tables model.now catalog.now.tables rows.now)) }
{
    let tables = opened_tables(alloc, catalog, model, rows)?;
    RowVersions::new(alloc, tables)
}
