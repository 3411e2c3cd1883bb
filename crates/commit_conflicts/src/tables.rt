//! The tables that writes and commits write.
ghost use Rattle.std.specs.Prelude.{◌≡◌};
ghost use Rattle.std.specs.List.{list_any};
ghost use Rattle.std.specs.Option.{option_copied};
ghost use Rattle.query_meaning.specs.WriteTyping.{table_name_of};
ghost use Rattle.stored_versions.specs.Conflicts.{first_table, names_table, wrote_same};

use commit_log::Commit;
use values::Name;
use vra_syntax::Write;

/// The first table, in the order of the writes, that the commit wrote.
pub fn first_table<'a>(writes: &'a [Write], commit: &Commit) -> Option<&'a Name>
    ensures { option_copied result ≡ first_table writes.now commit.now }
{
    let mut writes = writes;
    while let Some((write, more)) = writes.split_first() {
        if wrote_same(commit, write) {
            return Some(table_name(write));
        }
        writes = more;
    }
    None
}

/// Whether the commit wrote the table of the write.
fn wrote_same(commit: &Commit, write: &Write) -> bool
    ensures { result ≡ wrote_same commit.now write.now }
{
    let table = table_name(write);
    commit
        .writes
        .as_slice()
        .iter()
        .any(|other| names_table(table, other))
}

fn names_table(table: &Name, write: &Write) -> bool
    ensures { result ≡ names_table table.now write.now }
{
    *table_name(write) == *table
}

fn table_name(write: &Write) -> &Name
    ensures { result.now ≡ table_name_of write.now }
{
    match write {
        Write::Insert(table, _names, _rows, _expr) => table,
        Write::Delete(table, _cond, _expr) => table,
        Write::Update(table, _items, _cond, _expr) => table,
    }
}
