//! The messages of the PostgreSQL protocol 3.0 as values and as bytes, both ways. No state is kept between calls.
//!
//! The path of a type's file is part of this crate's interface: a specification above names it.
#![tactic(auto)]

mod back;
mod back_codec;
mod decoded;
mod encode_refused;
mod front;
mod front_codec;
mod laws;
mod packet;
mod room;
mod startup;
mod startup_codec;

pub use back::{BACK_LIMIT, Back, ErrorField, Field, Status};
pub use back_codec::{back_len, decode_back, encode_back, encode_back_from};
pub use decoded::{Decoded, Why};
pub use encode_refused::EncodeRefused;
pub use front::{FRONT_LIMIT, Front};
pub use front_codec::{
    decided_front, decode_front, encode_front, encode_front_from, front_len, front_length,
};
pub use laws::{back_laws, front_laws, limit_laws, startup_laws};
pub use startup::{Pair, STARTUP_LIMIT, Startup};
pub use startup_codec::{
    decided_startup, decode_startup, encode_startup, encode_startup_from, startup_len,
    startup_length,
};
