ghost use Rattle.std.specs.Prelude.{◌≡◌, ◌++◌, ◌∷◌, [], IfErr, IfOk};
ghost use Rattle.live_snapshots.specs.Snapshots.{AreMarks, NoMark, lesser, oldest, without, without_mark};

use crate::snapshot::Snap;
use std::alloc::Global;
use std::marker::Model;
use values::Memory;

/// The live snapshots, in the order in which they began.
#[derive(Drop)]
pub struct Live {
    pairs: Vec<(u64, u64)>,
    next: u64,
}

impl Model for Live {
    ghost use Rattle.std.specs.Prelude.{ℕ, List as Items};
    ghost use Rattle.live_snapshots.specs.Snapshots.{AreBelow};

    ghost Value = { Items (ℕ × ℕ) };

    ghost view = { λ l. l.pairs.items };

    ghost invariant = { λ l. AreBelow 0 l.next l.pairs.items };
}

#[tactic(auto, using(crate::proofs::LiveLaws::one_more, crate::proofs::LiveLaws::none_next, crate::proofs::LiveLaws::still_below_without, crate::proofs::LiveLaws::marks_of))]
impl Live {
    /// None yet. It takes no memory.
    pub fn new(alloc: Global) -> Live
        ensures { result ≡ [] }
    {
        Live {
            pairs: Vec::new(alloc),
            next: 0,
        }
    }

    /// A snapshot of so many commits, under a mark that no live one has. After the last mark there is no other.
    pub fn begin(&mut self, number: u64) -> Result<Snap, Memory>
        ensures number { IfOk result (λ snap. snap.1 ≡ number) }
        ensures fresh { IfOk result (λ snap. NoMark snap.0 self.old) }
        ensures live { IfOk result (λ snap. self.new ≡ self.old ++ snap ∷ []) }
        ensures left { IfErr result (λ why. self.new ≡ self.old) }
    {
        let mark = self.next;
        let Some(next) = mark.checked_add(1) else {
            return Err(Memory);
        };
        self.pairs.push((mark, number))?;
        self.next = next;
        Ok(Snap::marked(mark, number))
    }

    /// The snapshot isn't live any more. It takes no memory.
    pub fn release(&mut self, snap: Snap)
        ensures { self.new ≡ without snap self.old }
    {
        let mark = snap.mark();
        drop_mark(&mut self.pairs, mark);
    }

    /// The least number of commits that a live snapshot sees.
    pub fn oldest(&self) -> Option<u64>
        ensures { result ≡ oldest self.now }
    {
        least_of(self.pairs.as_slice())
    }

    /// No two have one mark.
    pub fn known(&self)
        ensures { AreMarks self.now }
    {
        let _ = &self.next;
    }
}

fn drop_mark(pairs: &mut Vec<(u64, u64)>, mark: u64)
    ensures { pairs.new.items ≡ without_mark mark pairs.old.items }
{
    pairs.retain(|pair| pair.0 != mark);
}

#[tactic(auto, using(crate::proofs::OldestLaws::one_less))]
fn least_of(pairs: &[(u64, u64)]) -> Option<u64>
    ensures { result ≡ oldest pairs.now }
{
    let mut least = None;
    let mut pairs = pairs;
    while let Some((pair, more)) = pairs.split_first() {
        least = Some(lesser(least, pair.1));
        pairs = more;
    }
    least
}

fn lesser(least: Option<u64>, number: u64) -> u64
    ensures { result ≡ lesser least number }
{
    match least {
        Some(other) => other.min(number),
        None => number,
    }
}
