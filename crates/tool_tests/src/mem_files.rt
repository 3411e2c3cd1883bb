ghost use Rattle.std.specs.Prelude.{◌≡◌, ◌↔◌, ◌&&◌, true, false, Some, Contains, IfSome, IfNone, IsTrue, map};
ghost use Rattle.std.specs.Str.{bytes_eq};
ghost use Rattle.top_calls.specs.Sources.{Files, Reads, CountsRead, Lasts};
ghost use Rattle.tool_tests.specs.MemFiles.{file_of, files_of, is_there, none_fails, PutsContent};

use feature_expr::{List, Text};
use top_calls::{FileGot, Source};

/// A file in memory.
#[derive(Debug, Drop)]
pub struct MemFile {
    pub name: Text,
    pub bytes: Text,
}

/// Files in memory. A read fails where the name isn't there, or the call was to fail.
#[derive(Debug, Drop)]
pub struct MemFiles {
    files: List<MemFile>,
    failing: List<u64>,
    calls: u64,
    faults: u64,
}

impl MemFiles {
    /// The calls with the numbers in `failing`, counted from 0, fail.
    pub fn new(files: List<MemFile>, failing: List<u64>) -> MemFiles
        ensures contents { (files_of result).contents ≡ Some (map file_of files) }
        ensures faults { (files_of result).faults ≡ 0 }
        ensures sure { (files_of result).is_sure ≡ λ name. none_fails failing && is_there files name }
    {
        MemFiles {
            files,
            failing,
            calls: 0,
            faults: 0,
        }
    }
}

impl Source for MemFiles {
    ghost files = { files_of };

    fn read_file(&mut self, name: &str, max: u64, into: &mut Vec<u8>) -> FileGot {
        let is_failing = is_to_fail(self.failing.as_slice(), self.calls);
        self.calls = self.calls.saturating_add(1);
        match content_of(self.files.as_slice(), name.as_bytes()) {
            Some(content) if !is_failing => put_content(content, max, into),
            _ => {
                self.faults = self.faults.saturating_add(1);
                FileGot::Failed
            }
        }
    }
}

fn is_to_fail(failing: &[u64], call: u64) -> bool
    ensures { result ≡ true → none_fails failing.now ≡ false }
{
    failing.contains(&call)
}

/// The content of the first file with this name.
fn content_of<'a>(files: &'a [MemFile], name: &[u8]) -> Option<&'a [u8]>
    ensures content { IfSome result (λ content. Contains (map file_of files.now) (name.now, content.now)) }
    ensures none { IfNone result (is_there files.now name.now ≡ false) }
{
    for file in files {
        if is_named(file, name) {
            return Some(file.bytes.as_slice());
        }
    }
    None
}

fn is_named(file: &MemFile, name: &[u8]) -> bool
    ensures same { IsTrue result ↔ (file.now.name ≡ name.now) }
    ensures is { result ≡ bytes_eq file.now.name name.now }
{
    file.name.as_slice() == name
}

/// Puts a content behind what was there, where it is within the limit.
fn put_content(content: &[u8], max: u64, into: &mut Vec<u8>) -> FileGot
    ensures { PutsContent content.now max result into.old.items into.new.items }
{
    if content.len() as u64 > max {
        return FileGot::TooLong;
    }
    match into.extend_from_slice(content) {
        Ok(()) => FileGot::Whole,
        Err(_failed) => FileGot::Memory,
    }
}
