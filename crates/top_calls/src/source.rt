ghost use Rattle.std.specs.Prelude.{ℕ};
ghost use Rattle.top_calls.specs.Sources.{Files, Reads, CountsRead, Lasts};

/// What a read of a file gave.
#[derive(Clone, Copy, Debug, PartialEq, Eq)]
pub enum FileGot {
    /// The whole content, behind what was there.
    Whole,
    TooLong,
    Failed,
    Memory,
}

/// Where files come from. It means their contents, where they are told, a count of faults that rises at each failed
/// read, and of which names a read can never fail.
pub trait Source {
    ghost files: { Self → Files };

    /// Reads the file with this name, of at most `max` bytes, behind what `into` holds. Every answer but `Whole`
    /// leaves `into` as it was.
    fn read_file(&mut self, name: &str, max: u64, into: &mut Vec<u8>) -> FileGot
        ensures got { Reads (files self.old) name.now max result into.old.items into.new.items }
        ensures counts { CountsRead result (files self.old).faults (files self.new).faults }
        ensures lasts { Lasts (files self.old) (files self.new) };
}
