//! What a write makes of the rows of its table under conditions.
#![tactic(auto)]

mod columns;
mod fates;
mod given;
mod inserted;
mod split;
mod there;
mod touch;
mod written;

pub use columns::stored_columns;
pub use fates::row_fate;
pub use inserted::inserted_rows;
pub use there::{can_be_there, present_rows};
pub use touch::{can_touch, touch_on};
pub use written::write_rows;
