//! Devices of std that fail, and devices that are lent.
use byte_io::{
    DeviceError, ReadDevice, ShortReads, SliceSource, Source, VecSink, WriteDevice, read_to_fill,
    write_all,
};
use std::io;
use std::test::Fail;

#[test]
fn a_lent_source_fills_a_buffer(rt: HostRuntime) {
    let mut source = ShortReads::new(SliceSource::new(b"quorum"), 2);
    let mut buffer = [0; 5];
    assert!(rt; read_to_fill(&mut &mut source, &mut buffer) == Ok(5) && buffer == *b"quoru");
}

#[test]
fn a_lent_sink_keeps_what_is_written(rt: HostRuntime) -> Result<(), Fail> {
    let mut sink = VecSink::new(rt.alloc());
    write_all(&mut &mut sink, b"the motion")?;
    assert!(rt; sink.as_slice() == b"the motion".as_slice());
    Ok(())
}

/// A reader and a writer of std that fails, or takes no byte.
#[derive(Drop)]
struct Broken {
    takes_none: bool,
}

impl io::Read for Broken {
    fn read(&mut self, _buffer: &mut [u8]) -> io::Result<usize> {
        Err(io::Error::from(io::ErrorKind::Interrupted))
    }
}

impl io::Write for Broken {
    fn write(&mut self, _bytes: &[u8]) -> io::Result<usize> {
        if self.takes_none {
            Ok(0)
        } else {
            Err(io::Error::from(io::ErrorKind::BrokenPipe))
        }
    }

    fn flush(&mut self) -> io::Result<()> {
        Ok(())
    }
}

#[test]
fn a_reader_that_fails(rt: HostRuntime) {
    let mut source = ReadDevice::new(Broken { takes_none: false });
    assert!(rt; source.read(&mut [0; 4]) == Err(DeviceError));
}

#[test]
fn a_writer_that_fails(rt: HostRuntime) {
    for takes_none in [false, true] {
        let mut sink = WriteDevice::new(Broken { takes_none });
        assert!(rt; write_all(&mut sink, b"poll") == Err(DeviceError));
    }
}
