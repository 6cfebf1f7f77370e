//! The ports of this machine.
ghost use Rattle.std.specs.Prelude.{ℕ, IfOk, OnErr};

use tcp_close::{Listener, SocketError};

/// The ports of this machine, which only this machine reaches.
pub trait Ports {
    /// What listens on a port.
    type Bound: Listener + Drop;

    /// Holds of the ports, one of them, what listens on it, and the ports as they are then.
    ghost binds: { Self → ℕ → Self.Bound → Self → Type 0 };

    /// Holds of the ports, one that cannot be had, and the ports as they are then.
    ghost refuses: { Self → ℕ → Self → Type 0 };

    /// Listens on a port, on the address of this machine alone.
    fn bind(&mut self, port: u16) -> Result<Self::Bound, SocketError>
        ensures bound { IfOk result (λ listener. binds self.old port listener self.new) }
        ensures refused { OnErr result (refuses self.old port self.new) };
}
