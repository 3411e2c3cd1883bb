ghost use Rattle.std.specs.Prelude.{◌≡◌, ◌≤◌, ◌↔◌, ◌⊎◌, ◌||◌, [], true, false, map, length, string_bytes, is_some, OnOk, IfSome, IfOk, IfErr};
ghost use Rattle.causes.specs.Told.{IsContent};
ghost use Rattle.top_calls.specs.Sources.{IsLong, Lasts, MayFail, file_limit};
ghost use Rattle.top_calls.specs.Exits.{is_replay, is_check, catalogue_name, stream_name, IsReadable, IsRefusedFile, IfCatalogue, IfUnopened, IsReadExit, IsOpeningExit, HasNoFault, IsToolExit, CountsReads, CountsWrites};
ghost use Rattle.top_calls.specs.Passed.{HasPassed};
ghost use Rattle.top_calls.specs.Checks.{IsChecked, IsCheckedFile, IsReady, IsToldExit, IsCheckExit, IsUnpassedExit};
ghost use Rattle.commit_log.specs.Places.{own_kept};
ghost use Rattle.store_states.specs.Promises.{Opens};
ghost use Rattle.stored_versions.specs.Openings.{Opening};
ghost use Rattle.top_calls.specs.Replays.{log_limit};
ghost use Rattle.top_calls.specs.Stores.{IsOpenedStore};
ghost use Rattle.vschema.specs.Formed.{IsFormed};
ghost use Rattle.top_calls.specs.Replayed.{IsReplayedExit, IsRunExit};
ghost use Rattle.top_calls.specs.declared.exit.Exit.TheVariants as exit;

use crate::check_line::line_of_passed;
use crate::exit::{CatalogueFault, Exit};
use crate::replay::{LOOP_NO, put_all, replay};
use crate::sink::Sink;
use crate::source::{FileGot, Source};
use commit_log::OwnLog;
use condition_sat::Model;
use feature_expr::{List, Memory};
use snapshot_store::{OpenRefused, Store};
use std::alloc::Global;
use vra_types::{CheckRefused, check_catalog};
use vschema::{Catalog, CatalogRefused, OpeningRow, parse_catalog};

/// The greatest length of a file that is read, in bytes.
pub const FILE_LIMIT: u64 = 268_435_456;

/// The greatest number of commits of a replay's log.
const LOG_LIMIT: u64 = 1_000_000;

/// Runs the command that the words name: `replay CATALOGUE STREAM` runs one session over the bytes of the second file
/// and puts out what it answers. `check CATALOGUE` says whether the catalogue can be used.
#[tactic(auto, using(crate::proofs::ReadyLaws::no_fault))]
pub fn run_tool<F: Source, O: Sink>(
    alloc: Global,
    words: &[String],
    files: &mut F,
    out: &mut O,
) -> Exit
    // Where no cause of a fault holds, the command is done, but for want of memory.
    ensures completes { is_replay (map string_bytes words.now) ≡ true
        → HasNoFault (F.files files.old) (F.files files.new) (catalogue_name (map string_bytes words.now)) (stream_name (map string_bytes words.now)) (O.held out.old) (O.held out.new)
        → (result ≡ exit.Done) ⊎ (result ≡ exit.Memory) }
    // So it is where the catalogue's file holds a catalogue that passes its check.
    ensures ready { is_replay (map string_bytes words.now) ≡ true
        → IsReady (F.files files.old) (F.files files.new) (catalogue_name (map string_bytes words.now)) (stream_name (map string_bytes words.now)) (O.held out.old) (O.held out.new)
        → (result ≡ exit.Done) ⊎ (result ≡ exit.Memory) }
    // What a replay put out begins the reply of a session to the stream, and is the whole of it where it is done.
    ensures replayed { is_replay (map string_bytes words.now) ≡ true
        → IsReplayedExit (F.files files.old) (catalogue_name (map string_bytes words.now)) (stream_name (map string_bytes words.now)) result (O.held out.old) (O.held out.new) }
    // What a check put out is the line of a catalogue that passes, or begins it.
    ensures told { is_check (map string_bytes words.now) ≡ true
        → IsToldExit (F.files files.old) (catalogue_name (map string_bytes words.now)) result (O.held out.old) (O.held out.new) }
    ensures checks { is_check (map string_bytes words.now) ≡ true
        → HasNoFault (F.files files.old) (F.files files.new) (catalogue_name (map string_bytes words.now)) (catalogue_name (map string_bytes words.now)) (O.held out.old) (O.held out.new)
        → (result ≡ exit.Done) ⊎ (result ≡ exit.Memory) }
    ensures ready_to_check { is_check (map string_bytes words.now) ≡ true
        → IsReady (F.files files.old) (F.files files.new) (catalogue_name (map string_bytes words.now)) (catalogue_name (map string_bytes words.now)) (O.held out.old) (O.held out.new)
        → (result ≡ exit.Done) ⊎ (result ≡ exit.Memory) }
    ensures usage { (result ≡ exit.Usage) ↔ ((is_replay (map string_bytes words.now) || is_check (map string_bytes words.now)) ≡ false) }
    // A count of faults rises at the fault that the exit tells, and else stays as it was.
    ensures reads { CountsReads result (F.files files.old).faults (F.files files.new).faults }
    ensures writes { CountsWrites result (O.held out.old).faults (O.held out.new).faults }
    // A read fault is that of a file that is asked for; the second is read once the first has passed its check.
    ensures unread { result ≡ exit.ReadFault
        → MayFail (F.files files.old) (catalogue_name (map string_bytes words.now))
        ⊎ (is_replay (map string_bytes words.now) ≡ true) × IsChecked (F.files files.old) (catalogue_name (map string_bytes words.now)) × MayFail (F.files files.old) (stream_name (map string_bytes words.now)) }
    // The second file's length counts once the first is a catalogue that passes its check.
    ensures long { result ≡ exit.TooLong
        → IsLong (F.files files.old).contents (catalogue_name (map string_bytes words.now)) file_limit
        ⊎ (is_replay (map string_bytes words.now) ≡ true) × IsChecked (F.files files.old) (catalogue_name (map string_bytes words.now)) × IsLong (F.files files.old).contents (stream_name (map string_bytes words.now)) file_limit }
    ensures catalogue { IfCatalogue result (IsRefusedFile (F.files files.old) (catalogue_name (map string_bytes words.now))) }
    ensures silent { IfUnopened result (O.held out.new ≡ O.held out.old) }
    ensures served { IsToolExit result }
    ensures lasts { Lasts (F.files files.old) (F.files files.new) }
    ensures later { (O.held out.old).faults ≤ (O.held out.new).faults }
{
    match replay_names(words) {
        Some((catalogue, stream)) => run_replay(alloc, catalogue, stream, files, out),
        None => match check_name(words) {
            Some(catalogue) => run_check(alloc, catalogue, files, out),
            None => Exit::Usage,
        },
    }
}

/// The names of the two files, where the words are those of a replay.
fn replay_names(words: &[String]) -> Option<(&str, &str)>
    ensures is { is_some result ≡ is_replay (map string_bytes words.now) }
    ensures catalogue { IfSome result (λ names. names.0.now ≡ catalogue_name (map string_bytes words.now)) }
    ensures stream { IfSome result (λ names. names.1.now ≡ stream_name (map string_bytes words.now)) }
{
    match words {
        [command, catalogue, stream] if command.as_str() == "replay" => {
            Some((catalogue.as_str(), stream.as_str()))
        }
        _ => None,
    }
}

/// The name of the catalogue, where the words are those of a check.
fn check_name(words: &[String]) -> Option<&str>
    ensures is { is_some result ≡ is_check (map string_bytes words.now) }
    ensures catalogue { IfSome result (λ name. name.now ≡ catalogue_name (map string_bytes words.now)) }
{
    match words {
        [command, catalogue] if command.as_str() == "check" => Some(catalogue.as_str()),
        _ => None,
    }
}

/// A catalogue that passes its check, its opening rows and its feature model.
#[derive(Drop)]
struct Passed {
    catalog: Catalog,
    rows: List<OpeningRow>,
    model: Model,
}

/// Says on the sink what a catalogue has that passes its check.
#[tactic(auto, using(crate::proofs::CompleteLaws::opening_completes, crate::proofs::CheckLaws::not_told, crate::proofs::CountLaws::counts))]
fn run_check<F: Source, O: Sink>(alloc: Global, catalogue: &str, files: &mut F, out: &mut O) -> Exit
    ensures ends { IsCheckExit (F.files files.old) catalogue.now result (F.files files.new) (O.held out.old) (O.held out.new) }
    ensures told { IsToldExit (F.files files.old) catalogue.now result (O.held out.old) (O.held out.new) }
    ensures completes { HasNoFault (F.files files.old) (F.files files.new) catalogue.now catalogue.now (O.held out.old) (O.held out.new)
        → (result ≡ exit.Done) ⊎ (result ≡ exit.Memory) }
    ensures reads { CountsReads result (F.files files.old).faults (F.files files.new).faults }
    ensures writes { CountsWrites result (O.held out.old).faults (O.held out.new).faults }
    ensures lasts { Lasts (F.files files.old) (F.files files.new) }
    ensures later { (O.held out.old).faults ≤ (O.held out.new).faults }
{
    let passed = match read_catalogue(alloc, catalogue, files) {
        Ok(passed) => passed,
        Err(exit) => return exit,
    };
    let Ok(line) = line_of_passed(alloc, &passed.catalog, &passed.rows) else {
        return Exit::Memory;
    };
    if put_all(line.as_slice(), out) {
        Exit::Done
    } else {
        Exit::WriteFault
    }
}

#[tactic(auto, using(crate::proofs::CompleteLaws::opening_completes, crate::proofs::CompleteLaws::read_completes, crate::proofs::CompleteLaws::replay_completes, crate::proofs::ReplayedLaws::replayed_over, crate::proofs::ReplayedLaws::not_opened, crate::proofs::ReplayedLaws::not_read, crate::proofs::ReplayedLaws::read_over, crate::proofs::CountLaws::counts))]
fn run_replay<F: Source, O: Sink>(
    alloc: Global,
    catalogue: &str,
    stream: &str,
    files: &mut F,
    out: &mut O,
) -> Exit
    ensures ends { IsRunExit (F.files files.old) catalogue.now stream.now result (F.files files.new) (O.held out.old) (O.held out.new) }
    ensures completes { HasNoFault (F.files files.old) (F.files files.new) catalogue.now stream.now (O.held out.old) (O.held out.new)
        → (result ≡ exit.Done) ⊎ (result ≡ exit.Memory) }
    ensures replayed { IsReplayedExit (F.files files.old) catalogue.now stream.now result (O.held out.old) (O.held out.new) }
    ensures reads { CountsReads result (F.files files.old).faults (F.files files.new).faults }
    ensures writes { CountsWrites result (O.held out.old).faults (O.held out.new).faults }
    ensures lasts { Lasts (F.files files.old) (F.files files.new) }
    ensures later { (O.held out.old).faults ≤ (O.held out.new).faults }
{
    let store = match read_store(alloc, catalogue, files) {
        Ok(store) => store,
        Err(exit) => return exit,
    };
    let bytes = match read_whole(alloc, stream, files) {
        Ok(bytes) => bytes,
        Err(exit) => return exit,
    };
    replay(alloc, store, bytes.as_slice(), out)
}

/// A store over a catalogue that passes its check, with an empty log.
#[tactic(auto, using(crate::proofs::ReplayedLaws::opened_by))]
fn read_store<F: Source>(alloc: Global, name: &str, files: &mut F) -> Result<Store<OwnLog>, Exit>
    ensures readable { OnOk result (IsReadable (F.files files.old) name.now) }
    ensures opened { IfOk result (λ store. IsOpenedStore (F.files files.old) name.now store) }
    ensures err { IfErr result (λ exit. IsOpeningExit (F.files files.old) name.now exit (F.files files.new)) }
    ensures quiet { OnOk result ((F.files files.new).faults ≡ (F.files files.old).faults) }
    ensures reads { IfErr result (λ exit. CountsReads exit (F.files files.old).faults (F.files files.new).faults) }
    ensures lasts { Lasts (F.files files.old) (F.files files.new) }
{
    let passed = read_catalogue(alloc, name, files)?;
    store_of(alloc, passed)
}

/// Reads a catalogue and checks it, and drops its bytes.
fn read_catalogue<F: Source>(alloc: Global, name: &str, files: &mut F) -> Result<Passed, Exit>
    ensures readable { OnOk result (IsReadable (F.files files.old) name.now) }
    ensures checked { IfOk result (λ passed. IsCheckedFile (F.files files.old) name.now passed.catalog passed.rows) }
    ensures passes { IfOk result HasPassed }
    ensures err { IfErr result (λ exit. IsOpeningExit (F.files files.old) name.now exit (F.files files.new)) }
    ensures quiet { OnOk result ((F.files files.new).faults ≡ (F.files files.old).faults) }
    ensures reads { IfErr result (λ exit. CountsReads exit (F.files files.old).faults (F.files files.new).faults) }
    ensures lasts { Lasts (F.files files.old) (F.files files.new) }
{
    let bytes = read_whole(alloc, name, files)?;
    match parse_catalog(alloc, bytes.as_slice()) {
        Ok((catalog, rows)) => checked_catalogue(alloc, catalog, rows),
        Err(CatalogRefused::Memory) => Err(Exit::Memory),
        Err(why) => Err(Exit::Catalogue(CatalogueFault::Parse(why))),
    }
}

/// The catalogue and its rows, where they pass their check.
fn checked_catalogue(
    alloc: Global,
    catalog: Catalog,
    rows: List<OpeningRow>,
) -> Result<Passed, Exit>
    requires { IsFormed catalog rows }
    ensures same { IfOk result (λ it. (it.catalog ≡ catalog) × (it.rows ≡ rows)) }
    ensures passes { IfOk result HasPassed }
    ensures refused { IfErr result (λ exit. IsUnpassedExit exit catalog rows) }
{
    match check_catalog(alloc, &catalog, &rows) {
        Ok(model) => Ok(Passed {
            catalog,
            rows,
            model,
        }),
        Err(CheckRefused::Memory) => Err(Exit::Memory),
        Err(why) => Err(Exit::Catalogue(CatalogueFault::Check(why, catalog))),
    }
}

#[tactic(auto, using(crate::proofs::LogLaws::never_failed))]
fn store_of(alloc: Global, passed: Passed) -> Result<Store<OwnLog>, Exit>
    requires { HasPassed passed }
    ensures opened { IfOk result (λ store. Opens (record { catalog = passed.catalog; rows = passed.rows }) (own_kept [] log_limit 0) 0 store) }
    ensures memory { IfErr result (λ why. why ≡ exit.Memory) }
{
    let Passed {
        catalog,
        rows,
        model,
    } = passed;
    let log = OwnLog::new(alloc, LOG_LIMIT);
    match Store::over(alloc, catalog, rows, model, log, LOOP_NO) {
        Ok(store) => Ok(store),
        Err((OpenRefused::Memory, _log)) => Err(Exit::Memory),
        Err((OpenRefused::KeeperFault, log)) => {
            // (a log in memory never fails)
            log.known();
            Err(Exit::Memory)
        }
    }
}

/// The whole content of a file.
fn read_whole<F: Source>(alloc: Global, name: &str, files: &mut F) -> Result<Vec<u8>, Exit>
    ensures content { IfOk result (λ bytes. IsContent (F.files files.old).contents name.now bytes.items) }
    ensures within { IfOk result (λ bytes. length bytes.items ≤ file_limit) }
    ensures err { IfErr result (λ exit. IsReadExit (F.files files.old) name.now exit (F.files files.new)) }
    ensures quiet { OnOk result ((F.files files.new).faults ≡ (F.files files.old).faults) }
    ensures reads { IfErr result (λ exit. CountsReads exit (F.files files.old).faults (F.files files.new).faults) }
    ensures lasts { Lasts (F.files files.old) (F.files files.new) }
{
    let mut bytes = Vec::new(alloc);
    match files.read_file(name, FILE_LIMIT, &mut bytes) {
        FileGot::Whole => Ok(bytes),
        FileGot::TooLong => Err(Exit::TooLong),
        FileGot::Failed => Err(Exit::ReadFault),
        FileGot::Memory => Err(Exit::Memory),
    }
}
