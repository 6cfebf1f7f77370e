//! What stands under the name of a desk's file, before it is opened as a database.
ghost use Rattle.std.specs.Prelude.{◌≡◌, ◌↔◌, IfErr, IsTrue};
ghost use Rattle.file_probe.specs.DeskFileErrors.{IsUnmade, IsUnreadable};
ghost use Rattle.file_probe.specs.FileStates.{IsBegun, file_state_at, making_error, opening_error};

use crate::fault::DeskFileError;
use std::fs::{self, OpenOptions};
use std::io::{self, ErrorKind, Read};
use std::os::unix::fs::OpenOptionsExt;
use std::rt::HostRuntime;

/// What stands in the log beside a desk's file.
#[derive(Clone, Copy)]
enum Log {
    /// No log, or an empty one.
    Nothing,
    /// What a stopped `init` left, with no page of a desk.
    Begun,
    /// What a desk left.
    Left,
}

/// What stands under a name and in the log beside it, before either is opened as a database.
#[derive(Clone, Copy)]
pub enum FileState {
    /// No file, and no log that a desk left.
    Nothing,
    /// No file, but the log that a desk left.
    LoneLog,
    /// A file that is empty or a single byte, and no log that a desk left; or what a stopped `init`
    /// left.
    Blank,
    /// A file that is empty or a single byte, and the log that a desk left.
    Emptied,
    /// Another file, or what is no file.
    Full,
}

impl FileState {
    /// Why no desk is made there: a log would be lost.
    fn making_error(self) -> Option<DeskFileError>
        ensures { result ≡ making_error self }
    {
        match self {
            FileState::LoneLog | FileState::Emptied => Some(DeskFileError::NotEmpty),
            FileState::Nothing | FileState::Blank | FileState::Full => None,
        }
    }

    /// Why no desk is opened there. The library would make a database of such a file, and empty its
    /// log.
    pub fn opening_error(self) -> Option<DeskFileError>
        ensures { result ≡ opening_error self }
    {
        match self {
            FileState::Nothing | FileState::LoneLog | FileState::Emptied => Some(
                DeskFileError::Store,
            ),
            FileState::Blank => Some(DeskFileError::NotADesk),
            FileState::Full => None,
        }
    }
}

/// Why the system refuses a file.
fn by_system(error: io::Error) -> DeskFileError
    ensures { IsUnreadable result }
{
    if error.kind() == ErrorKind::OutOfMemory {
        return DeskFileError::Memory;
    }
    DeskFileError::Store
}

/// Makes an empty file that its owner alone can read and write, and tells whether it did. What
/// stands under that name already is left as it is. The error is `NotEmpty`, and no file is made,
/// where a desk left a log and no file beside it, or one that is empty or a single byte.
pub fn make_file(rt: &HostRuntime, file: &str) -> Result<bool, DeskFileError>
    ensures { IfErr result IsUnmade }
{
    if let Some(error) = find(rt, file)?.making_error() {
        return Err(error);
    }
    let made = OpenOptions::new()
        .write(true)
        .create_new(true)
        .mode(0o600)
        .open(rt, file);
    match made {
        Ok(_) => Ok(true),
        Err(error) if error.kind() == ErrorKind::AlreadyExists => Ok(false),
        Err(error) => Err(by_system(error)),
    }
}

/// Whether a log of so many bytes that begins so is what a stopped `init` left. The library writes
/// 41 bytes of a new log, the first of them last, before it writes the file, and this number of
/// checkpoints only then.
fn is_begun(size: u64, head: &[u8; 16]) -> bool
    ensures { IsTrue result ↔ IsBegun size head.now }
{
    size <= 41 && (head[0] == 0 || head[12..] == [0xff; 4])
}

/// The front of a file. Bytes that it does not have are 1.
fn front(rt: &HostRuntime, file: &str) -> io::Result<[u8; 16]> {
    let mut front = [1; 16];
    let _ = fs::open(rt, file)?.read(&mut front)?;
    Ok(front)
}

/// What stands in the log of this name.
fn read_log(rt: &HostRuntime, log: &str) -> io::Result<Log> {
    let size = match fs::metadata(rt, log) {
        Ok(found) => found.len(),
        Err(error) if error.kind() == ErrorKind::NotFound => 0,
        Err(error) => return Err(error),
    };
    if size == 0 {
        return Ok(Log::Nothing);
    }
    let is_begun = is_begun(size, &front(rt, log)?);
    Ok(if is_begun { Log::Begun } else { Log::Left })
}

/// What stands in the log beside the file of this name, which leads over no link.
fn log_beside(rt: &HostRuntime, file: &str) -> Result<Log, DeskFileError>
    ensures { IfErr result IsUnreadable }
{
    let log = format!(in rt.alloc(); "{}-wal", file).map_err(|_| DeskFileError::Memory)?;
    read_log(rt, &log).map_err(by_system)
}

/// What a file of so many bytes, of which this is the first, is beside such a log. The first byte
/// of a file that `init` makes is 0 until the file is a database.
fn judge(size: u64, first: u8, log: Log) -> FileState
    ensures { result ≡ file_state_at size first log }
{
    match log {
        Log::Nothing if size <= 1 => FileState::Blank,
        Log::Begun if size <= 1 || first == 0 => FileState::Blank,
        Log::Left if size <= 1 => FileState::Emptied,
        _ => FileState::Full,
    }
}

/// What stands in a file of so many bytes. Its log lies where a link leads.
fn find_in(rt: &HostRuntime, file: &str, size: u64) -> Result<FileState, DeskFileError>
    ensures { IfErr result IsUnreadable }
{
    let front = front(rt, file).map_err(by_system)?;
    let real = fs::canonicalize(rt, file).map_err(by_system)?;
    let log = log_beside(rt, real.as_str())?;
    Ok(judge(size, front[0], log))
}

/// What stands under the name of a desk's file.
pub fn find(rt: &HostRuntime, file: &str) -> Result<FileState, DeskFileError>
    ensures { IfErr result IsUnreadable }
{
    match fs::metadata(rt, file) {
        Ok(found) if found.is_file() => find_in(rt, file, found.len()),
        Ok(_) => Ok(FileState::Full),
        Err(error) if error.kind() == ErrorKind::NotFound => Ok(match log_beside(rt, file)? {
            Log::Left => FileState::LoneLog,
            Log::Nothing | Log::Begun => FileState::Nothing,
        }),
        Err(error) => Err(by_system(error)),
    }
}
