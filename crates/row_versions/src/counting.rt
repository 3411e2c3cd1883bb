ghost use Rattle.std.specs.Prelude.{◌≡◌, ◌+◌, ◌<◌, ◌^◌, IfSome, OnSome};
ghost use Rattle.row_versions.specs.Waiting.{ends_count};
ghost use Rattle.version_changes.specs.Changes.{begun_count};

use table_changes::TableChange;

/// How many rows end, where there is a number for the commit and for each row that begins.
pub fn counted(applied: u64, next: u64, changes: &[TableChange]) -> Option<usize>
    ensures ends { IfSome result (λ ends. ends ≡ ends_count changes.now) }
    ensures numbers { OnSome result (next + begun_count changes.now < 2 ^ 64) }
    ensures commits { OnSome result (applied + 1 < 2 ^ 64) }
{
    let _commit = applied.checked_add(1)?;
    let mut number = next;
    let mut ends = 0;
    let mut changes = changes;
    while let Some((change, more)) = changes.split_first() {
        number = number.checked_add(change.begun.len() as u64)?;
        ends = change.ends.len().checked_add(ends)?;
        changes = more;
    }
    Some(ends)
}
