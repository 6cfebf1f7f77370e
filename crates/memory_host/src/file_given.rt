//! One file that is handed in.
use byte_io::{DeviceError, SliceSource};
use host::Files;

/// One file of this name, with these bytes.
#[derive(Drop)]
pub struct FileGiven<'a> {
    pub name: &'a str,
    pub bytes: &'a [u8],
}

impl<'a> Files for FileGiven<'a> {
    ghost use Rattle.std.specs.Prelude.{◌≡◌, ◌≢◌};

    type File = SliceSource<'a>;

    ghost opens = { λ old name file new. (name ≡ old.name.now)
        × (file ≡ record { bytes = old.bytes.now; passed = 0 }) × (new ≡ old) };

    ghost refuses = { λ old name new. (name ≢ old.name.now) × (new ≡ old) };

    fn open(&mut self, name: &str) -> Result<SliceSource<'a>, DeviceError> {
        if name == self.name {
            Ok(SliceSource::new(self.bytes))
        } else {
            Err(DeviceError)
        }
    }
}
