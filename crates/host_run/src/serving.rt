//! The command that serves a desk.
ghost use Rattle.cli_exit.specs.Endings.{ended_view};
ghost use Rattle.host_run.specs.Commands.{ServesAt, ServesFile, ServesOn};

use any_office::Office;
use cli_exit::{Ended, ExitError, Line};
use host::{Console, OfficeFiles, Ports, ZoneClocks};
use std::alloc::Global;
use tcp_close::{Listener, SocketError};
use wall_clock::OfficeZone;

/// Says that the port is bound, and serves a desk on it by the clock of a zone.
fn serve_on<D: Office, L: Listener, K: ZoneClocks, W: Console>(
    alloc: Global,
    requests: u32,
    zone: OfficeZone,
    listener: &mut L,
    clocks: &mut K,
    output: &mut W,
    desk: &mut D,
) -> Ended
    ensures { ServesOn D.Office L.Listener L.Reader.Source L.Writer.Sink
        K.ZoneClocks K.Made.Clock W.Sink requests zone listener.old
        clocks.old clocks.new output.old output.new desk.old desk.new (ended_view result) }
{
    match output.print_line(&Line::Name("listening")) {
        Ok(()) => {
            let mut clock = clocks.in_zone(zone);
            cli_commands::serve(alloc, listener, desk, &mut clock, requests)
        }
        Err(_) => Ended::by(ExitError::WriteFault),
    }
}

/// Binds a port, and serves a desk on it.
fn serve_at<D: Office, P: Ports, K: ZoneClocks, W: Console>(
    alloc: Global,
    port: u16,
    requests: u32,
    zone: OfficeZone,
    ports: &mut P,
    clocks: &mut K,
    output: &mut W,
    desk: &mut D,
) -> Ended
    ensures { ServesAt D.Office P.Ports P.Bound.Listener P.Bound.Reader.Source P.Bound.Writer.Sink
        K.ZoneClocks K.Made.Clock W.Sink port requests zone
        ports.old ports.new clocks.old clocks.new output.old output.new desk.old desk.new
        (ended_view result) }
{
    match ports.bind(port) {
        Ok(bound) => {
            let mut listener = bound;
            serve_on(alloc, requests, zone, &mut listener, clocks, output, desk)
        }
        Err(SocketError) => Ended::by(ExitError::Socket),
    }
}

/// Serves the desk in a file on a port: opens the desk, then binds the port.
pub(crate) fn serve<O: OfficeFiles, P: Ports, K: ZoneClocks, W: Console>(
    alloc: Global,
    file: &str,
    port: u16,
    requests: u32,
    zone: OfficeZone,
    offices: &mut O,
    ports: &mut P,
    clocks: &mut K,
    output: &mut W,
) -> Ended
    ensures { ServesFile O.OfficeFiles O.File.Office P.Ports P.Bound.Listener
        P.Bound.Reader.Source P.Bound.Writer.Sink K.ZoneClocks K.Made.Clock W.Sink
        file.now port requests zone offices.old offices.new ports.old ports.new
        clocks.old clocks.new output.old output.new (ended_view result) }
{
    match offices.open(alloc, file) {
        Ok(opened) => {
            let mut desk = opened;
            let ended = serve_at(
                alloc, port, requests, zone, ports, clocks, output, &mut desk,
            );
            offices.close(file, desk);
            ended
        }
        Err(ended) => ended,
    }
}
