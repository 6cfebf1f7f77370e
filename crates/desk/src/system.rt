//! The host that is the system: each method makes one call of std. No contract says what the system
//! gives or takes, so this file is read, and not proved.
use byte_io::{DeviceError, ReadDevice, Sink};
use cli_exit::Line;
use host::{Console, Files, Ports, ZoneClocks, prints_nothing};
use std::fs;
use std::net::{Ipv4Addr, TcpListener};
use std::rt::HostRuntime;
use tcp_close::SocketError;
use wall_clock::{OfficeZone, WallClock};

/// The files, clocks and ports of the system.
#[derive(Drop)]
pub(crate) struct System(pub(crate) HostRuntime);

impl Files for System {
    type File = ReadDevice<fs::File>;

    ghost opens = { λ _ _ _ _. Unit {0} };

    ghost refuses = { λ _ _ _. Unit {0} };

    fn open(&mut self, name: &str) -> Result<ReadDevice<fs::File>, DeviceError> {
        match fs::open(&self.0, name) {
            Ok(file) => Ok(ReadDevice::new(file)),
            Err(_) => Err(DeviceError),
        }
    }
}

impl ZoneClocks for System {
    ghost use Rattle.std.specs.Prelude.{◌≡◌};

    type Made = WallClock<HostRuntime>;

    ghost makes = { λ _ zone clock _. clock.zone ≡ zone };

    fn in_zone(&mut self, zone: OfficeZone) -> WallClock<HostRuntime> {
        WallClock::new(self.0, zone)
    }
}

impl Ports for System {
    type Bound = TcpListener;

    ghost binds = { λ _ _ _ _. Unit {0} };

    ghost refuses = { λ _ _ _. Unit {0} };

    fn bind(&mut self, port: u16) -> Result<TcpListener, SocketError> {
        TcpListener::bind(&self.0, (Ipv4Addr::LOCALHOST, port)).map_err(|_| SocketError)
    }
}

/// Standard output or standard error.
#[derive(Drop)]
pub(crate) struct Stream<P> {
    stream: P,
    failures: u64,
}

impl<P> Stream<P> {
    pub(crate) fn new(stream: P) -> Stream<P> {
        Stream {
            stream,
            failures: 0,
        }
    }
}

impl<P: Print> Sink for Stream<P> {
    ghost use Rattle.std.specs.Prelude.{None};

    ghost contents = { λ _. None };

    ghost failures = { λ stream. stream.failures };

    fn write(&mut self, bytes: &[u8]) -> Result<usize, DeviceError> {
        match self.stream.write_some(bytes) {
            Ok(count) if count > 0 || bytes.is_empty() => Ok(count),
            _ => {
                self.failures = self.failures.saturating_add(1);
                Err(DeviceError)
            }
        }
    }
}

impl<P: Print> Console for Stream<P> {
    fn print_line(&mut self, line: &Line) -> Result<(), DeviceError> {
        if prints_nothing(line) {
            return Ok(());
        }
        let done = match line {
            Line::Words(text) => self.stream.print(text),
            line => self.stream.println(line),
        };
        match done {
            Ok(()) => Ok(()),
            Err(_) => {
                self.failures = self.failures.saturating_add(1);
                Err(DeviceError)
            }
        }
    }
}
