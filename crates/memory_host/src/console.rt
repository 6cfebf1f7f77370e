//! A stream in memory.
ghost use Rattle.std.specs.Prelude.{◌≡◌, IfOk, OnErr, OnOk};
ghost use Rattle.byte_io.specs.Counts.{one_more};
ghost use Rattle.host.specs.PrintedLines.{printed};

use byte_io::{DeviceError, Sink};
use cli_exit::Line;
use host::{Console, prints_nothing};
use std::alloc::{AllocError, Global};

/// A stream that keeps in memory what is printed on it. A want of memory is a failure of it.
#[derive(Drop)]
pub struct Paper {
    pub alloc: Global,
    pub bytes: Vec<u8>,
    pub failures: u64,
}

/// What is printed of a line.
fn text_of(alloc: Global, line: &Line) -> Result<Vec<u8>, AllocError>
    ensures { IfOk result (λ text. text.items ≡ printed line.now) }
{
    let mut text = Vec::new(alloc);
    match line {
        Line::Words(words) => text.extend_from_slice(words.as_bytes())?,
        line => {
            let words = format!(in alloc; "{line}")?;
            text.extend_from_slice(words.as_bytes())?;
            text.push(b'\n')?;
        }
    }
    Ok(text)
}

impl Paper {
    /// Counts a failure.
    fn fail<T>(&mut self) -> Result<T, DeviceError>
        ensures failed { OnErr result (self.new ≡ record self.old { failures = one_more self.old.failures }) }
        ensures is_error { OnOk result ⊥ }
    {
        self.failures = self.failures.saturating_add(1);
        Err(DeviceError)
    }
}

impl Sink for Paper {
    ghost use Rattle.std.specs.Prelude.{Some};

    ghost contents = { λ paper. Some paper.bytes.items };

    ghost failures = { λ paper. paper.failures };

    fn write(&mut self, bytes: &[u8]) -> Result<usize, DeviceError> {
        match self.bytes.extend_from_slice(bytes) {
            Ok(()) => Ok(bytes.len()),
            Err(_) => self.fail(),
        }
    }
}

impl Console for Paper {
    fn print_line(&mut self, line: &Line) -> Result<(), DeviceError> {
        if prints_nothing(line) {
            return Ok(());
        }
        let Ok(text) = text_of(self.alloc, line) else {
            return self.fail();
        };
        match self.bytes.extend_from_slice(&text) {
            Ok(()) => Ok(()),
            Err(_) => self.fail(),
        }
    }
}
