//! One client's session over a store: the bytes that it is fed, the steps that it takes, and the bytes that it has for the
//! client.
#![tactic(auto)]

mod begin;
mod commit;
mod inbox;
mod left;
mod poll;
mod polled;
mod queries;
mod session;
mod show;
mod start_up;
mod state;
mod statements;
mod write;

pub use polled::Polled;
pub use session::Session;
