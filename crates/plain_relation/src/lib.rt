//! Plain relations: what one variant's tables, and the answers to its queries, are. It holds definitions alone.
#![tactic(auto)]
