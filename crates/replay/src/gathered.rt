//! Answers that wait, so that one write takes many.
ghost use Rattle.std.specs.Prelude.{◌≡◌, ◌++◌, ◌+◌, ◌≤◌, [], IsFalse, IsTrue, OnErr, OnOk};
ghost use Rattle.std.specs.Io.KnownBytes.{Appends};
ghost use Rattle.byte_io.specs.Counts.{one_more};
ghost use Rattle.byte_io.specs.Written.{AppendsPrefix};
ghost use Rattle.line_reader.specs.Lines.{HasFeed};
ghost use Rattle.line_reader.specs.NextLine.{longest_input};
ghost use Rattle.replay.specs.Gathered.{IsGathered};

use byte_io::{DeviceError, Sink, write_all};
use line_reader::LineReader;
use std::alloc::Global;
use std::marker::Model;

/// How many bytes wait at most.
const ROOM: usize = 65_536;

/// Answers that wait to be written.
#[derive(Drop)]
pub struct Gathered {
    text: Vec<u8>,
}

impl Model for Gathered {
    ghost use Rattle.std.specs.Prelude.{ℕ, List, ◌≤◌, length};

    ghost Value = { List ℕ };

    ghost view = { λ g. g.text.items };

    ghost invariant = { λ g. length g.text.items ≤ 65536 };
}

impl Gathered {
    /// No answer, and no room yet.
    pub fn new(alloc: Global) -> Gathered
        ensures { result ≡ [] }
    {
        Gathered {
            text: Vec::new(alloc),
        }
    }

    /// Puts a text behind what waits. `false` says that there is no room for it, or no memory for
    /// the room, and nothing changes.
    fn has_taken(&mut self, text: &[u8]) -> bool
        ensures taken { IsTrue result → self.new ≡ self.old ++ text.now }
        ensures same { IsFalse result → self.new ≡ self.old }
    {
        text.len() <= ROOM - self.text.len() && self.text.extend_from_slice(text).is_ok()
    }

    /// Writes what waits.
    fn write_out<W: Sink>(&mut self, writer: &mut W) -> Result<(), DeviceError>
        ensures written { OnOk result
            (Appends (W.contents writer.old) (W.contents writer.new) self.old) }
        ensures none_waits { OnOk result (self.new ≡ []) }
        ensures partly { OnErr result
            (AppendsPrefix (W.contents writer.old) (W.contents writer.new) self.old) }
        ensures works { OnOk result (W.failures writer.new ≡ W.failures writer.old) }
        ensures failed { OnErr result (W.failures writer.new ≡ one_more (W.failures writer.old)) }
    {
        write_all(writer, &self.text)?;
        self.text.clear();
        Ok(())
    }

    /// Puts a text behind what waits. What has no room is written, in its order.
    pub fn put<W: Sink>(&mut self, writer: &mut W, text: &[u8]) -> Result<(), DeviceError>
        ensures waits { OnOk result (IsGathered (W.contents writer.old) (W.contents writer.new)
            self.new (self.old ++ text.now)) }
        ensures partly { OnErr result (AppendsPrefix (W.contents writer.old) (W.contents writer.new)
            (self.old ++ text.now)) }
        ensures works { OnOk result (W.failures writer.new ≡ W.failures writer.old) }
        ensures failed { OnErr result (W.failures writer.new ≡ one_more (W.failures writer.old)) }
    {
        if self.has_taken(text) {
            return Ok(());
        }
        self.write_out(writer)?;
        if self.has_taken(text) {
            return Ok(());
        }
        write_all(writer, text)
    }

    /// Writes what waits, unless the next line is taken without a read.
    pub fn write_before_read<W: Sink>(
        &mut self,
        writer: &mut W,
        lines: &mut LineReader,
    ) -> Result<(), DeviceError>
        ensures waits { OnOk result (IsGathered (W.contents writer.old) (W.contents writer.new)
            self.new self.old) }
        ensures none_waits { OnOk result (¬ HasFeed lines.old.pending → self.new ≡ []) }
        ensures partly { OnErr result
            (AppendsPrefix (W.contents writer.old) (W.contents writer.new) self.old) }
        ensures works { OnOk result (W.failures writer.new ≡ W.failures writer.old) }
        ensures failed { OnErr result (W.failures writer.new ≡ one_more (W.failures writer.old)) }
        ensures same { lines.new ≡ lines.old }
        ensures bound { lines.old.taken ≤ longest_input + 1 }
    {
        if lines.is_line_ahead() {
            return Ok(());
        }
        self.write_out(writer)
    }
}
