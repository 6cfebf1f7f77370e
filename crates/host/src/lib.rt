//! What the program works with outside itself, behind traits with ghost members: files that are
//! handed in, files that hold offices, clocks, ports, and the standard streams. A contract over these
//! can say which file is opened, in which order, and what stands on each stream afterwards.
#![tactic(auto)]

mod console;
mod files;
mod host;
mod offices;
mod ports;
mod zone_clocks;

pub use console::{Console, prints_nothing};
pub use files::Files;
pub use host::Host;
pub use offices::OfficeFiles;
pub use ports::Ports;
pub use zone_clocks::ZoneClocks;
