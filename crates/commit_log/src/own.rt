ghost use Rattle.std.specs.Prelude.{◌≡◌, ◌≤◌, MatchBool, length, []};
ghost use Rattle.commit_log.specs.Places.{own_kept};
ghost use Rattle.causes.specs.Faults.{Rose};

use crate::append::Append;
use crate::commit::Commit;
use crate::keeper::Keeper;
use crate::refresh::Refresh;
use std::alloc::Global;
use std::marker::Model;
use values::List;

/// The log in memory, to which nobody else adds.
#[derive(Drop)]
pub struct OwnLog {
    commits: List<Commit>,
    max: u64,
    ghost within: { length commits ≤ max },
}

impl OwnLog {
    pub fn new(alloc: Global, max: u64) -> OwnLog
        ensures { ⟦<OwnLog as Keeper>⟧.kept result ≡ own_kept [] max 0 }
    {
        OwnLog {
            commits: List::new(alloc),
            max,
        }
    }
}

impl OwnLog {
    /// Nobody else added to it, and it never failed.
    pub fn known(&self)
        ensures { let kept = ⟦<OwnLog as Keeper>⟧.kept self.now in kept ≡ own_kept kept.seen kept.most 0 }
    {
        let _ = &self.max;
    }
}

impl Keeper for OwnLog {
    ghost use Rattle.commit_log.specs.Places.{own_kept};

    ghost kept = { λ s. own_kept s.commits s.max 0 };

    fn refresh(&mut self) -> Refresh {
        Refresh::Seen(self.commits.len() as u64)
    }

    fn append(&mut self, commit: Commit) -> Append {
        let seen = self.commits.len() as u64;
        if seen >= self.max {
            return Append::Full(seen, commit);
        }
        match self.commits.push(commit) {
            Ok(()) => Append::At(seen + 1),
            Err(commit) => Append::Memory(commit),
        }
    }

    #[tactic(auto, using(crate::proofs::PlaceLaws::ascend))]
    fn seen(&self) -> u64 {
        self.commits.len() as u64
    }

    fn commit(&self, place: u64) -> &Commit {
        &self.commits.as_slice()[place as usize]
    }
}

/// A log in memory, of which the calls with these numbers, from 0, fail.
#[derive(Drop)]
pub struct FailingLog {
    inner: OwnLog,
    failing: List<u64>,
    calls: u64,
    faults: u64,
}

impl FailingLog {
    pub fn new(alloc: Global, max: u64, failing: List<u64>) -> FailingLog
        ensures { ⟦<FailingLog as Keeper>⟧.kept result ≡ own_kept [] max 0 }
    {
        FailingLog {
            inner: OwnLog::new(alloc, max),
            failing,
            calls: 0,
            faults: 0,
        }
    }

    /// Whether this call is to fail.
    fn fails(&mut self) -> bool
        ensures inner { self.new.inner ≡ self.old.inner }
        ensures fault { MatchBool result (Rose self.old.faults self.new.faults) (self.new.faults ≡ self.old.faults) }
        ensures later { self.old.faults ≤ self.new.faults }
    {
        let call = self.calls;
        self.calls = call.saturating_add(1);
        let fails = self.failing.as_slice().contains(&call);
        if fails {
            self.faults = self.faults.saturating_add(1);
        }
        fails
    }
}

impl Keeper for FailingLog {
    ghost use Rattle.commit_log.specs.Places.{own_kept};

    ghost kept = { λ s. own_kept s.inner.commits s.inner.max s.faults };

    fn refresh(&mut self) -> Refresh {
        if self.fails() {
            return Refresh::Failed;
        }
        self.inner.refresh()
    }

    fn append(&mut self, commit: Commit) -> Append {
        let fails = self.fails();
        let seen = self.inner.commits.len() as u64;
        if seen == self.inner.max {
            return Append::Full(seen, commit);
        }
        if fails {
            return Append::Failed(commit);
        }
        self.inner.append(commit)
    }

    #[tactic(auto, using(crate::proofs::PlaceLaws::ascend))]
    fn seen(&self) -> u64 {
        self.inner.seen()
    }

    fn commit(&self, place: u64) -> &Commit {
        self.inner.commit(place)
    }
}
