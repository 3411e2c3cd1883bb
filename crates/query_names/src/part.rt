ghost use Rattle.std.specs.Prelude.{◌≡◌, ◌≤◌, true, length};
ghost use Rattle.query_names.specs.Headings.{headings};
ghost use Rattle.query_names.specs.Once.{stand_once};

use crate::columns::PossibleColumn;
use crate::found::Findings;

/// The greatest number of columns of a part.
pub const COLUMN_LIMIT: usize = 1600;

/// What the names of a part of a query say: its possible columns, of which there aren't too many, and what was found in
/// its text.
#[derive(Drop)]
pub struct QueryNames<'a> {
    pub possible: Vec<PossibleColumn<'a>>,
    pub findings: Findings<'a>,
    ghost once: { stand_once (headings possible.items) ≡ true },
    ghost narrow: { length possible.items ≤ 1600 },
}
