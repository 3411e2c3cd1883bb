ghost use Rattle.std.specs.Prelude.{◌≡◌, Some};
ghost use Rattle.row_versions.specs.Cleaning.{is_first_gone, still_ended};
ghost use Rattle.row_versions.specs.Holdings.{AreEnded};

use crate::ended::EndedRow;
use std::collections::VecDeque;

/// Drops what ended up to the oldest live snapshot, or all where none lives.
#[tactic(auto, using(crate::proofs::CleanLaws::none_still))]
pub fn drop_ended(ended: &mut VecDeque<EndedRow>, oldest: Option<u64>)
    requires { AreEnded 0 ended.old.items }
    ensures { ended.new.items ≡ still_ended oldest ended.old.items }
{
    match oldest {
        Some(oldest) => drop_up_to(ended, oldest),
        None => ended.clear(),
    }
}

#[tactic(auto, using(crate::proofs::CleanLaws::all_still, crate::proofs::CleanLaws::popped, crate::proofs::CleanLaws::popped_ended))]
fn drop_up_to(ended: &mut VecDeque<EndedRow>, oldest: u64)
    requires { AreEnded 0 ended.old.items }
    ensures { ended.new.items ≡ still_ended (Some oldest) ended.old.items }
{
    while is_first_gone(ended, oldest) {
        let _dropped = ended.pop_front();
    }
}

/// Whether the first one has ended by then.
fn is_first_gone(ended: &VecDeque<EndedRow>, oldest: u64) -> bool
    ensures { result ≡ is_first_gone oldest ended.now.items }
{
    match ended.front() {
        Some(first) => first.ends <= oldest,
        None => false,
    }
}
