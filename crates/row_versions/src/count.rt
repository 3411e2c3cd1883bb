ghost use Rattle.std.specs.Prelude.{◌≡◌, ◌+◌, ◌<◌, ◌≤◌, ◌^◌};
ghost use Rattle.row_versions.specs.Stored.{row_count};

use plan_tables::TableRows;

/// How many versions there are, which are no more than numbers were given.
pub fn kept(ended: usize, tables: &[TableRows], next: u64) -> u64
    requires { ended + row_count tables.now ≤ next }
    ensures { result ≡ ended + row_count tables.now }
{
    let count = row_count(tables);
    prove!(count <= next);
    count + ended as u64
}

/// How many rows the tables have.
fn row_count(tables: &[TableRows]) -> u64
    requires { row_count tables.now < 2 ^ 64 }
    ensures { result ≡ row_count tables.now }
{
    let mut count = 0;
    let mut tables = tables;
    while let Some((table, more)) = tables.split_first() {
        count += table.rows.rows.len() as u64;
        tables = more;
    }
    count
}
