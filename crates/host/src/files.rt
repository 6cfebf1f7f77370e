//! The files that the program is handed.
ghost use Rattle.std.specs.Prelude.{ℕ, List, IfOk, OnErr};

use byte_io::{DeviceError, Source};

/// The files that the program is handed, by their names.
pub trait Files {
    /// A file that is open, from its front.
    type File: Source + Drop;

    /// Holds of the files, a name, what is opened under it, and the files as they are then.
    ghost opens: { Self → List ℕ → Self.File → Self → Type 0 };

    /// Holds of the files, a name under which nothing is opened, and the files as they are then.
    ghost refuses: { Self → List ℕ → Self → Type 0 };

    /// Opens the file of that name for reading.
    fn open(&mut self, name: &str) -> Result<Self::File, DeviceError>
        ensures opened { IfOk result (λ file. opens self.old name.now file self.new) }
        ensures refused { OnErr result (refuses self.old name.now self.new) };
}
