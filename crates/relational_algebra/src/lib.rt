//! The variational relational algebra over one variant: columns, conditions, items and operators of plain relations. It holds definitions alone.
#![tactic(auto)]
