//! A run of the program over a host in memory.
use crate::peer_port::PeerPort;
use byte_io::{SliceSource, VecSink};
use desk_words::Moment;
use host::Host;
use memory_host::{ClocksGiven, FileGiven, OfficeFileGiven, Paper, Stored};
use std::alloc::{AllocError, Global};

/// What a run is given beside its words and the office: the moments of its clock, the file that is
/// handed in, and what a peer sends.
#[derive(Clone, Copy)]
pub(crate) struct Given<'a> {
    pub moments: &'a [Moment],
    pub file: &'a [u8],
    pub request: &'a [u8],
}

/// What a run came to: its status, what it printed, what the peer was sent, and what the file for the
/// office holds then.
#[derive(Drop)]
pub(crate) struct Ran {
    pub status: u8,
    pub reply: VecSink,
    pub output: Vec<u8>,
    pub errors: Vec<u8>,
    pub stored: Stored,
}

/// The words that a line has, with a space or more between two.
pub(crate) fn words_of(alloc: Global, line: &str) -> Result<Vec<String>, AllocError> {
    let mut words = Vec::new(alloc);
    for word in line.split(' ') {
        if !word.is_empty() {
            words.push(String::from_str(alloc, word)?)?;
        }
    }
    Ok(words)
}

/// A stream on which nothing is printed yet.
fn paper(alloc: Global) -> Paper {
    Paper {
        alloc,
        bytes: Vec::new(alloc),
        failures: 0,
    }
}

/// Runs the program over an office in the file `g.desk`, with the file that is handed in as
/// `handed`.
pub(crate) fn run(alloc: Global, words: &[String], stored: Stored, given: Given) -> Ran {
    let mut reply = VecSink::new(alloc);
    let mut host = Host {
        offices: OfficeFileGiven {
            alloc,
            name: "g.desk",
            stored,
        },
        files: FileGiven {
            name: "handed",
            bytes: given.file,
        },
        clocks: ClocksGiven {
            moments: given.moments,
        },
        input: SliceSource::new(b""),
        output: paper(alloc),
        errors: paper(alloc),
        ports: PeerPort::new(given.request, &mut reply),
    };
    let status = host_run::run(alloc, words, &mut host);
    let Host {
        offices,
        files: _,
        clocks: _,
        input: _,
        output,
        errors,
        ports: _,
    } = host;
    Ran {
        status,
        reply,
        output: output.bytes,
        errors: errors.bytes,
        stored: offices.stored,
    }
}
