//! The program: it makes the real objects, runs the command that its words name, and tells how it ended.
#![tactic(auto)]

use std::alloc::AllocError;
use std::io::ErrorKind;
use std::process::ExitCode;
use std::rt::Runtime;
use std::{env, io, str};
use top_calls::{Exit, OpenedFiles, SystemFiles, WriterSink, fault_line, run_tool, status};

fn main(rt: HostRuntime) -> ExitCode {
    let exit = run(&rt);
    tell(&rt, &exit);
    ExitCode::from(status(&exit))
}

/// Runs the command over the system's files and standard output.
fn run<R: Runtime + AllocGlobal>(rt: &R) -> Exit {
    let words: Vec<String> = match env::args(rt) {
        Ok(words) => match words.skip(1).collect(rt.alloc()) {
            Ok(words) => words,
            Err(AllocError) => return Exit::Memory,
        },
        // A word that isn't text is none of the program's.
        Err(error) if error.kind() == ErrorKind::OutOfMemory => return Exit::Memory,
        Err(_error) => return Exit::Usage,
    };
    let mut files = OpenedFiles::new(SystemFiles::new(rt));
    let mut out = WriterSink::new(io::writer(rt));
    run_tool(rt.alloc(), words.as_slice(), &mut files, &mut out)
}

/// Says on standard error why the program didn't do what it was asked for.
fn tell<R: Eprint + AllocGlobal>(rt: &R, exit: &Exit) {
    if let Exit::Done = exit {
        return;
    }
    if let Ok(line) = fault_line(rt.alloc(), exit) {
        if let Ok(line) = str::from_utf8(line.as_slice()) {
            let _told = rt.eprintln(line);
        }
    }
}
