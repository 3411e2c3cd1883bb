ghost use Rattle.live_snapshots.specs.Snapshots.{IsLive};
ghost use Rattle.store_states.specs.Promises.{Leaves, Releases};

use crate::store::Store;
use commit_log::Keeper;
use live_snapshots::Snap;

impl<K: Keeper> Store<K> {
    /// The snapshot isn't live any more, and versions that no other sees are let go of. It takes no memory.
    pub fn release(&mut self, snap: Snap)
        requires { IsLive self.old.live snap }
        ensures leaves { Leaves self.old self.new }
        ensures released { Releases self.old snap self.new }
    {
        self.versions.known();
        self.live.release(snap);
        self.versions.clean(self.live.oldest());
    }
}
