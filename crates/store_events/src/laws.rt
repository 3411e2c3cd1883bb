ghost use Rattle.std.specs.Prelude.{◌++◌, [], ◌∷◌, ℕ, List};
ghost use Rattle.store_events.specs.Events.{Event};
ghost use Rattle.store_events.specs.Lines.{IsFresh};
ghost use Rattle.store_events.specs.Ties.{Moment, Rising, Ties};

/// Laws of the events of a store. The call itself does nothing.
#[tactic(auto, using(crate::proofs::TieLaws::ties_on))]
pub fn event_laws()
    // What was answered up to a moment, and from it on, is all that was answered.
    ensures ties { (old mid new : Moment) (one two : List Event) → Ties old one mid → Ties mid two new → Ties old (one ++ two) new }
{}

/// Laws of the line of numbers that events tell. The call itself does nothing.
#[tactic(auto, using(crate::proofs::LineLaws::fresh_line))]
pub fn line_laws()
    // Whichever sessions asked, each snapshot holds every commit that was told before it, and no place is told twice.
    ensures fresh { (low high : ℕ) (events : List Event) → Rising low events high → IsFresh low events }
{}
