ghost use Rattle.std.specs.Prelude.{◌≡◌, ℕ, List};
ghost use Rattle.top_calls.specs.Checks.{HoldsPassing, IsReady};
ghost use Rattle.top_calls.specs.Sinks.{Held};
ghost use Rattle.top_calls.specs.Sources.{Files, file_limit};

use crate::tool::FILE_LIMIT;

/// Laws of numbers and of counts. The call itself does nothing.
#[tactic(auto, using(crate::proofs::ReadyLaws::no_fault_counted))]
pub fn tool_laws()
    ensures limit { FILE_LIMIT ≡ file_limit }
    // Over files that hold a catalogue that passes its check, and where neither object counted a fault before or in the
    // call, nothing keeps a command from being done, but want of memory.
    ensures ready { (before after : Files) (catalogue stream : List ℕ) (out out' : Held)
        → HoldsPassing before catalogue stream → before.faults ≡ 0 → after.faults ≡ 0 → out.faults ≡ 0 → out'.faults ≡ 0
        → IsReady before after catalogue stream out out' }
{}
