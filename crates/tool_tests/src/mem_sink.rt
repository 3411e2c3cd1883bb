ghost use Rattle.std.specs.Prelude.{◌≡◌, Some, []};
ghost use Rattle.tool_tests.specs.MemSinks.{held_of};

use feature_expr::List;
use std::alloc::Global;
use top_calls::{Sink, SinkPut};

/// A sink in memory. A piece for which it finds no memory is a fault.
#[derive(Debug, Drop)]
pub struct MemSink {
    bytes: List<u8>,
    failing: List<u64>,
    calls: u64,
    faults: u64,
}

impl MemSink {
    /// An empty one. The calls with the numbers in `failing`, counted from 0, fail.
    pub fn new(alloc: Global, failing: List<u64>) -> MemSink
        ensures { held_of result ≡ record { bytes = Some []; faults = 0 } }
    {
        MemSink {
            bytes: List::new(alloc),
            failing,
            calls: 0,
            faults: 0,
        }
    }

    /// The bytes that were put.
    pub fn bytes(&self) -> &List<u8>
        ensures { (held_of self.now).bytes ≡ Some result.now }
    {
        &self.bytes
    }
}

impl Sink for MemSink {
    ghost held = { held_of };

    fn put(&mut self, piece: &[u8]) -> SinkPut {
        let is_failing = self.failing.as_slice().contains(&self.calls);
        self.calls = self.calls.saturating_add(1);
        if piece.is_empty() {
            return SinkPut::Took(0);
        }
        if !is_failing && self.bytes.extend_from_slice(piece).is_ok() {
            SinkPut::Took(piece.len())
        } else {
            self.faults = self.faults.saturating_add(1);
            SinkPut::Failed
        }
    }
}
