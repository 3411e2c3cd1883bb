ghost use Rattle.std.specs.Prelude.{◌≡◌, ◌<◌, length, IfSome};
ghost use Rattle.vschema.specs.Spelling.{column_place};

use crate::catalog::Column;
use feature_expr::Name;

/// The greatest number of columns of a table.
pub const COLUMN_LIMIT: usize = 64;

/// The place of the column with this name.
pub fn find_column(columns: &[Column], name: &Name) -> Option<usize>
    ensures exact { result ≡ column_place name.now columns.now }
    ensures within { IfSome result (λ place. place < length columns.now) }
{
    columns.iter().position(|column| column.name == *name)
}
