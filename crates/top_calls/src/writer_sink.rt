ghost use Rattle.std.specs.Prelude.{◌≡◌};
ghost use Rattle.top_calls.specs.Sinks.{Held, Puts};

use crate::sink::{Sink, SinkPut};
use std::io::Write;

/// A sink over a writer, as standard output. It holds what the writer holds, where that one tells it, and counts each
/// error. A writer that takes nothing of a piece is a fault too.
#[derive(Drop)]
pub struct WriterSink<W> {
    writer: W,
    faults: u64,
}

impl<W> WriterSink<W> {
    pub fn new(writer: W) -> WriterSink<W>
        ensures writer { result.writer ≡ writer }
        ensures faults { result.faults ≡ 0 }
    {
        WriterSink { writer, faults: 0 }
    }
}

impl<W: Write> Sink for WriterSink<W> {
    ghost held = { λ it. record { bytes = W.contents it.writer; faults = it.faults } };

    #[tactic(auto, using(crate::proofs::Pieces::pieces))]
    fn put(&mut self, piece: &[u8]) -> SinkPut {
        if piece.is_empty() {
            return SinkPut::Took(0);
        }
        match self.writer.write(piece) {
            Ok(count) if count > 0 => SinkPut::Took(count),
            _ => {
                self.faults = self.faults.saturating_add(1);
                SinkPut::Failed
            }
        }
    }
}
