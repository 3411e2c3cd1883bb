ghost use Rattle.std.specs.Prelude.{◌≡◌, ◌≤◌, false, length, IfSome, IfNone};
ghost use Rattle.causes.specs.Faults.{Rose};
ghost use Rattle.top_calls.specs.Sources.{Files, Reads, CountsRead, Lasts};
ghost use Rattle.top_calls.specs.OpenedFiles.{Fills, ReadsPiece};

use crate::opener::Opener;
use crate::source::{FileGot, Source};
use std::io::Read;

/// How many bytes are read at once.
const PIECE: usize = 65_536;

/// Files that are opened and read to their end. They tell what their opener tells, and count each error.
#[derive(Drop)]
pub struct OpenedFiles<O> {
    opener: O,
    faults: u64,
}

impl<O> OpenedFiles<O> {
    pub fn new(opener: O) -> OpenedFiles<O>
        ensures opener { result.opener ≡ opener }
        ensures faults { result.faults ≡ 0 }
    {
        OpenedFiles { opener, faults: 0 }
    }
}

impl<O: Opener> Source for OpenedFiles<O> {
    ghost files = { λ it. record { contents = O.contents it.opener; faults = it.faults; is_sure = λ _. false } };

    #[tactic(auto, using(crate::proofs::FillLaws::opened))]
    fn read_file(&mut self, name: &str, max: u64, into: &mut Vec<u8>) -> FileGot {
        let start = into.len();
        let got = match self.opener.open_file(name) {
            Some(mut file) => fill(&mut file, max, into, &mut self.faults),
            None => {
                self.faults = self.faults.saturating_add(1);
                FileGot::Failed
            }
        };
        if got != FileGot::Whole {
            into.truncate(start);
        }
        got
    }
}

/// Reads to the end, behind what was there, or up to the first byte past the limit.
#[tactic(auto, using(crate::proofs::FillLaws::filling))]
pub fn fill<F: Read>(file: &mut F, max: u64, into: &mut Vec<u8>, faults: &mut u64) -> FileGot
    ensures fills { Fills (F.remaining file.old) max result into.old.items into.new.items }
    ensures counts { CountsRead result faults.old faults.new }
    ensures later { faults.old ≤ faults.new }
{
    let mut left = max;
    let mut piece = [0u8; PIECE];
    'pieces: loop {
        match read_piece(file, &mut piece, faults) {
            Some(0) => return FileGot::Whole,
            Some(count) => {
                if count as u64 > left {
                    return FileGot::TooLong;
                }
                left -= count as u64;
                if into.extend_from_slice(&piece[..count]).is_err() {
                    return FileGot::Memory;
                }
            }
            None => return FileGot::Failed,
        }
    }
}

/// One read. None: it was an error, which is counted.
fn read_piece<F: Read>(file: &mut F, piece: &mut [u8], faults: &mut u64) -> Option<usize>
    ensures reads { ReadsPiece (F.remaining file.old) result (F.remaining file.new) piece.new }
    ensures same { length piece.new ≡ length piece.old }
    ensures some { IfSome result (λ _. faults.new ≡ faults.old) }
    ensures none { IfNone result (Rose faults.old faults.new) }
    ensures later { faults.old ≤ faults.new }
{
    match file.read(piece) {
        Ok(count) => Some(count),
        Err(_error) => {
            *faults = faults.saturating_add(1);
            None
        }
    }
}
