//! Runs of the program in memory.
use crate::{ClocksGiven, FileGiven, OfficeFileGiven, Paper, PortGiven, Stored};
use byte_io::SliceSource;
use desk_words::{Moment, read_moment};
use host::Host;
use host_run::run;
use std::alloc::{AllocError, Global};
use tcp_close::Peer;

type InMemory<'a> = Host<
    OfficeFileGiven<'a>,
    FileGiven<'a>,
    ClocksGiven<'a>,
    SliceSource<'a>,
    Paper,
    Paper,
    PortGiven<'a>,
>;

fn paper(alloc: Global) -> Paper {
    Paper {
        alloc,
        bytes: Vec::new(alloc),
        failures: 0,
    }
}

fn host<'a>(alloc: Global, moments: &'a [Moment], peers: &'a [Peer<'a>]) -> InMemory<'a> {
    Host {
        offices: OfficeFileGiven {
            alloc,
            name: "g.desk",
            stored: Stored::Nothing,
        },
        files: FileGiven {
            name: "keys.csv",
            bytes: b"",
        },
        clocks: ClocksGiven { moments },
        input: SliceSource::new(b""),
        output: paper(alloc),
        errors: paper(alloc),
        ports: PortGiven {
            alloc,
            port: 8080,
            peers,
        },
    }
}

fn first_of_june() -> Result<[Moment; 1], AllocError> {
    match read_moment(b"2026-06-01T09:00:00") {
        Some(moment) => Ok([moment]),
        None => Err(AllocError),
    }
}

fn run_words(alloc: Global, host: &mut InMemory<'_>, given: &[&str]) -> Result<u8, AllocError> {
    let mut words = Vec::new(alloc);
    for word in given {
        words.push(String::from_str(alloc, word)?)?;
    }
    Ok(run(alloc, &words, host))
}

#[test]
fn a_port_that_is_not_there_is_not_served(rt: HostRuntime) -> Result<(), AllocError> {
    let alloc = rt.alloc();
    let moments = first_of_june()?;
    let peers = [Peer::Sends(b"GET /m/G1/notice HTTP/1.1\r\n\r\n")];
    let mut host = host(alloc, &moments, &peers);
    let made = run_words(alloc, &mut host, &["init", "g.desk"])?;
    let other = run_words(alloc, &mut host, &["serve", "g.desk", "--port", "8081"])?;
    let served = run_words(
        alloc,
        &mut host,
        &["serve", "g.desk", "--port", "8080", "--requests", "1"],
    )?;
    assert_eq!(rt; (made, other, served), (0, 3, 0));
    assert_eq!(rt;
        host.output.bytes.as_slice(),
        b"created\nlistening\n".as_slice()
    );
    assert_eq!(rt; host.errors.bytes.as_slice(), b"Socket\n".as_slice());
    Ok(())
}
