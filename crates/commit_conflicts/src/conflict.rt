ghost use Rattle.std.specs.Prelude.{◌≡◌};
ghost use Rattle.commit_conflicts.specs.Found.{found_conflict};
ghost use Rattle.stored_versions.specs.Conflicts.{conflict_of};

use crate::tables::first_table;
use commit_log::Keeper;
use values::Name;
use vra_syntax::Write;

/// A table that writes and a commit past their snapshot both write, and that commit's place, from 1.
#[derive(Clone, Copy)]
pub struct TableConflict<'a> {
    pub table: &'a Name,
    pub place: u64,
}

/// The first conflict of writes over a snapshot of so many commits with the commits that a keeper has seen: the least
/// place, and there the first table in the order of the writes. It takes no memory. Each write of each commit past the
/// snapshot is compared with each of these.
#[tactic(auto, using(crate::proofs::PlaceLaws::one_passed, crate::proofs::PlaceLaws::one_found, crate::proofs::PlaceLaws::none_behind))]
pub fn first_conflict<'a, K: Keeper>(
    keeper: &K,
    base: u64,
    writes: &'a [Write],
) -> Option<TableConflict<'a>>
    ensures { found_conflict result ≡ conflict_of (K.kept keeper.now).seen base writes.now }
{
    for place in base..keeper.seen() {
        if let Some(table) = first_table(writes, keeper.commit(place)) {
            return Some(TableConflict {
                table,
                place: place + 1,
            });
        }
    }
    None
}
