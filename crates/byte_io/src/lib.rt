//! Readers and writers whose bytes contracts can name, and whose failures are counted.
//!
//! A caller that is generic over a `Source` or a `Sink` can say in its own contract which bytes
//! came, which were written, and that it reports a failure only where a device failed.
#![tactic(auto)]

mod failure;
mod memory;
mod sink;
mod source;
mod std_device;
mod trial;

pub use failure::{DeviceError, FillError, PrintError};
pub use memory::{SliceSource, VecSink};
pub use sink::{Sink, write_all};
pub use source::{Source, read_to_fill};
pub use std_device::{ReadDevice, WriteDevice};
pub use trial::{FailAt, ShortReads};
