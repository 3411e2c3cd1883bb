ghost use Rattle.std.specs.Prelude.{◌≡◌, true, IfSome};
ghost use Rattle.std.specs.List.{list_any};
ghost use Rattle.key_links.specs.KeyLinks.{is_named, is_only_at};

use values::ColName;
use vtable::VColumn;

/// The place of the column of the name, where just one has it.
#[tactic(auto, using(crate::proofs::OnlyLaws::behind_all, crate::proofs::OnlyLaws::only_found, crate::proofs::OnlyLaws::only_behind))]
pub fn only_place(name: &ColName, columns: &[VColumn]) -> Option<usize>
    ensures { IfSome result (λ place. is_only_at name.now place columns.now ≡ true) }
{
    let mut place = 0;
    let mut left = columns;
    while let Some((column, more)) = left.split_first() {
        if is_named(name, column) {
            return if has_name(name, more) {
                None
            } else {
                Some(place)
            };
        }
        place += 1;
        left = more;
    }
    None
}

/// Whether a column has the name.
pub fn has_name(name: &ColName, columns: &[VColumn]) -> bool
    ensures { result ≡ list_any (is_named name.now) columns.now }
{
    columns.iter().any(|column| is_named(name, column))
}

fn is_named(name: &ColName, column: &VColumn) -> bool
    ensures { result ≡ is_named name.now column.now }
{
    column.name == *name
}
