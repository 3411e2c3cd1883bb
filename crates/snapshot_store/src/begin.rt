ghost use Rattle.std.specs.Prelude.{◌≡◌, IfErr, IfOk};
ghost use Rattle.snapshot_store.specs.Parts.{IsLooked, IsMarked, RefusesBegin};
ghost use Rattle.store_states.specs.Promises.{Begins, Leaves};

use crate::answers::BeginRefused;
use crate::store::Store;
use commit_log::{Keeper, Refresh};
use live_snapshots::Snap;
use values::Memory;

impl<K: Keeper> Store<K> {
    /// A snapshot of all commits that were added by now, under a mark that no live snapshot has.
    #[tactic(auto, using(crate::proofs::BeginLaws::begins, crate::proofs::BeginLaws::begin_leaves))]
    pub fn begin(&mut self) -> Result<Snap, BeginRefused>
        ensures leaves { Leaves self.old self.new }
        ensures begun { IfOk result (λ snap. Begins self.old snap self.new) }
        ensures refused { IfErr result (λ why. RefusesBegin self.old why self.new) }
    {
        match self.look() {
            Refresh::Seen(_seen) => {}
            Refresh::Failed => return Err(BeginRefused::KeeperFault),
            Refresh::Memory => return Err(BeginRefused::Memory),
        }
        match self.apply_seen() {
            Ok(()) => {}
            Err(Memory) => return Err(BeginRefused::Memory),
        }
        match self.mark() {
            Ok(snap) => Ok(snap),
            Err(Memory) => Err(BeginRefused::Memory),
        }
    }

    /// Looks for commits of others.
    pub(crate) fn look(&mut self) -> Refresh
        ensures { IsLooked self.old result self.new }
    {
        self.keeper.refresh()
    }

    /// A snapshot of all commits that were applied.
    fn mark(&mut self) -> Result<Snap, Memory>
        ensures ok { IfOk result (λ snap. IsMarked self.old snap self.new) }
        ensures err { IfErr result (λ why. self.new ≡ self.old) }
    {
        self.live.begin(self.versions.applied())
    }
}
