//! What the log says, put into the versions.
ghost use Rattle.std.specs.Prelude.{◌≡◌, ◌+◌, ◌<◌, length, IfErr, OnOk};
ghost use Rattle.snapshot_store.specs.Parts.{Applies};
ghost use Rattle.store_states.specs.Stored.{log_of};

use crate::store::Store;
use applied_commits::apply_commit;
use commit_log::Keeper;
use values::Memory;

impl<K: Keeper> Store<K> {
    #[tactic(auto, using(crate::proofs::StandLaws::applies_itself, crate::proofs::StandLaws::applies_on))]
    /// Applies the commits that were seen and aren't applied yet. Where one is refused, those before it are applied.
    pub(crate) fn apply_seen(&mut self) -> Result<(), Memory>
        ensures applies { Applies self.old self.new }
        ensures all { OnOk result (self.new.rows.applied ≡ length (log_of self.new)) }
    {
        for place in self.versions.applied()..self.keeper.seen() {
            self.apply_at(place)?;
        }
        Ok(())
    }

    /// Applies the commit at this place, which is the next one.
    fn apply_at(&mut self, place: u64) -> Result<(), Memory>
        requires next { place ≡ self.old.rows.applied }
        requires seen { place < length (log_of self.old) }
        ensures applies { Applies self.old self.new }
        ensures ok { OnOk result (self.new.rows.applied ≡ self.old.rows.applied + 1) }
    {
        self.versions.known();
        let commit = self.keeper.commit(place);
        apply_commit(
            self.alloc,
            &self.catalog,
            &self.model,
            &mut self.versions,
            commit,
        )?;
        self.versions.clean(self.live.oldest());
        Ok(())
    }
}
