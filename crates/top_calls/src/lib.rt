//! The calls that the program makes, over files and a sink that the caller gives: a catalogue is checked, or one session
//! is run over a stream of bytes.
#![tactic(auto)]

mod check_line;
mod exit;
mod laws;
mod opened_files;
mod opener;
mod replay;
mod sink;
mod source;
mod system_files;
mod tool;
mod writer_sink;

pub use exit::{CatalogueFault, Exit, fault_line, status};
pub use opened_files::{OpenedFiles, fill};
pub use opener::Opener;
pub use sink::{Sink, SinkPut};
pub use source::{FileGot, Source};
pub use system_files::SystemFiles;
pub use tool::run_tool;
pub use writer_sink::WriterSink;
