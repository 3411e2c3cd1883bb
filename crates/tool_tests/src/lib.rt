//! Tests of the calls that the program makes, over files and a sink in memory.
#![tactic(auto)]

mod mem_files;
mod mem_sink;
#[cfg(test)]
mod tests;

pub use mem_files::{MemFile, MemFiles};
pub use mem_sink::MemSink;
