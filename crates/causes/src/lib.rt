//! Words on counts of faults and on what an object of the outside tells. It holds definitions alone.
#![tactic(auto)]
