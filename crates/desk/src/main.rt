//! The desk of a company's general meetings.
#![tactic(auto)]

mod system;

use byte_io::ReadDevice;
use cli_exit::{Ended, ExitError, Line};
use desk_file::DiskFiles;
use host::Host;
use host_run::{report, run};
use sql_file::{Begins, DeskFile, SystemFiles, Wary};
use std::process::ExitCode;
use std::{env, io};
use system::{Stream, System};

/// The words of the program, without its own name. Words that are no text ask for nothing.
fn words(rt: &HostRuntime) -> Result<Vec<String>, Ended> {
    let mut words = Vec::new(rt.alloc());
    let given = env::args(rt).map_err(by_words_error)?;
    for word in given.skip(1) {
        words.push(word).map_err(|_| Ended::by(ExitError::Memory))?;
    }
    Ok(words)
}

fn by_words_error(error: io::Error) -> Ended {
    if error.kind() == io::ErrorKind::OutOfMemory {
        return Ended::by(ExitError::Memory);
    }
    Ended {
        status: 2,
        line: Some(Line::Name("words")),
    }
}

/// Runs the program on this system, of whose file `S` tells what it holds as it is opened, and returns
/// the status.
fn run_on<S: Begins>(rt: HostRuntime) -> u8 {
    let mut host = Host {
        offices: DiskFiles::<DeskFile<S>>::new(SystemFiles::new(rt)),
        files: System(rt),
        clocks: System(rt),
        input: ReadDevice::new(rt.reader()),
        output: Stream::new(rt.stdout()),
        errors: Stream::new(rt.stderr()),
        ports: System(rt),
    };
    match words(&rt) {
        Ok(words) => run(rt.alloc(), &words, &mut host),
        Err(ended) => report(&ended, &mut host.output, &mut host.errors),
    }
}

fn main(rt: HostRuntime) -> ExitCode {
    ExitCode::from(run_on::<Wary>(rt))
}
