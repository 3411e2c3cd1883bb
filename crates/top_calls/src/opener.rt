ghost use Rattle.std.specs.Prelude.{◌≡◌, ℕ, List, Option, IfSome};
ghost use Rattle.top_calls.specs.OpenedFiles.{IsOpened};

use std::io::Read;

/// What opens a file by its name. It means the files' contents, where they are told.
pub trait Opener {
    type File: Read + Drop;

    ghost contents: { Self → Option (List (List ℕ × List ℕ)) };

    /// The file with this name, at its start. None: it can't be opened.
    fn open_file(&mut self, name: &str) -> Option<Self::File>
        ensures opened { IfSome result (λ file. IsOpened (contents self.old) name.now (Self.File.remaining file)) }
        ensures same { contents self.new ≡ contents self.old };
}
