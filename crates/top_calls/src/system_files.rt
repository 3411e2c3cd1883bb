ghost use Rattle.std.specs.Prelude.{◌≡◌, ℕ, List, Option, None, IfSome};
ghost use Rattle.top_calls.specs.OpenedFiles.{IsOpened};

use crate::opener::Opener;
use std::fs;
use std::rt::Files;

/// The files of the system, whose contents aren't told.
#[derive(Drop)]
pub struct SystemFiles<'a, R> {
    rt: &'a R,
}

impl<'a, R> SystemFiles<'a, R> {
    pub fn new(rt: &'a R) -> SystemFiles<'a, R> {
        SystemFiles { rt }
    }
}

impl<R: Files> Opener for SystemFiles<'_, R> {
    type File = R::File;

    ghost contents = { λ it. None };

    fn open_file(&mut self, name: &str) -> Option<R::File> {
        fs::open(self.rt, name).ok()
    }
}
