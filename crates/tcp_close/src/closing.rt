//! What a connection is ended by.
ghost use Rattle.std.specs.Prelude.{OnErr, OnOk};

use byte_io::DeviceError;

/// The peer's side of a connection that ends.
pub trait Closing {
    /// Holds of a connection whose reply is ended, and the connection as it is then.
    ghost ends_reply: { Self → Self → Type 0 };

    /// Holds of a connection that waits for nothing from then on, as it was and as it is.
    ghost stops_waiting: { Self → Self → Type 0 };

    /// Holds of a connection that goes on waiting, as it was and as it is.
    ghost keeps_waiting: { Self → Self → Type 0 };

    /// Ends our side, so that the peer sees where the reply ends. Where the system refuses that the
    /// peer is gone, and there is nothing to save.
    fn end_reply(&mut self)
        ensures { ends_reply self.old self.new };

    /// From then on a read fails where it would wait. The error is that the system refuses this.
    fn stop_waiting(&mut self) -> Result<(), DeviceError>
        ensures stops { OnOk result (stops_waiting self.old self.new) }
        ensures keeps { OnErr result (keeps_waiting self.old self.new) };
}
