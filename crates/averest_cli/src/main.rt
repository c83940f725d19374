//! The program `averest`: the top call over the standard streams and the current folder.
#![tactic(auto)]

use averest_top::averest;
use outside::{DirShelf, NoGate, Sink, Status, StdSink, StdSource, put_report};
use quartz_tree::{Name, NoMemory};
use std::alloc::Global;
use std::env;
use std::io::{self, ErrorKind};
use std::process::ExitCode;

// The program's arguments without its own name.
fn names(alloc: Global, words: env::Args) -> Result<Vec<Name>, NoMemory> {
    let mut names = Vec::new(alloc);
    for word in words.skip(1) {
        names.push(Name::new(alloc, &word)?)?;
    }
    Ok(names)
}

// The status where there are no words to read. Want of memory is not reported.
fn without_words<E: Sink>(error: &io::Error, report: &mut E) -> Status {
    match error.kind() {
        ErrorKind::OutOfMemory => Status::NoMemory,
        _ => {
            let _ = put_report(&Status::Usage, report);
            Status::Usage
        }
    }
}

fn main(rt: HostRuntime) -> ExitCode {
    let mut report = StdSink::new(rt.stderr());
    let status = match env::args(&rt) {
        Err(error) => without_words(&error, &mut report),
        Ok(words) => match names(rt.alloc(), words) {
            Err(NoMemory) => Status::NoMemory,
            Ok(words) => averest(
                &rt,
                rt.alloc(),
                &words,
                &mut DirShelf::new(&rt),
                &mut StdSource::new(rt.stdin()),
                &mut StdSink::new(rt.stdout()),
                &mut report,
                &NoGate,
            ),
        },
    };
    ExitCode::from(status.number())
}
