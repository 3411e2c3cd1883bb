ghost use Rattle.top_calls.specs.Sinks.{Held, Puts};

/// What a sink did with a piece.
#[derive(Clone, Copy, Debug, PartialEq, Eq)]
pub enum SinkPut {
    /// It took so many of the first bytes, at least one of a piece that isn't empty.
    Took(usize),
    Failed,
}

/// Where bytes go. It means the bytes that it holds, where they are told, and a count of faults that rises at each
/// failed put.
pub trait Sink {
    ghost held: { Self → Held };

    fn put(&mut self, piece: &[u8]) -> SinkPut
        ensures { Puts (held self.old) piece.now result (held self.new) };
}
