//! The files that the office hands in.
use byte_io::SliceSource;
use desk_papers::{FileError, read_days, read_keys, read_register};
use desk_words::{
    DeskRequest, MeetingId, Moment, NewRegister, OfficeRequest, Request, read_meeting, read_moment,
};
use std::alloc::Global;

/// What a file spells.
#[derive(Clone, Copy)]
pub enum FileKind {
    Keys,
    Days,
    /// The register of a meeting, as it was at its record moment.
    Register {
        meeting: MeetingId,
        record_moment: Moment,
    },
}

/// A file that the office hands in at a moment.
#[derive(Drop)]
pub struct Handed<'a> {
    pub kind: FileKind,
    pub now: Moment,
    pub bytes: &'a [u8],
}

impl<'a> Handed<'a> {
    /// The file that a command hands in; none where its words have no form.
    pub fn read(command: &str, words: &str, bytes: &'a [u8]) -> Option<Handed<'a>> {
        let mut parts = words.split(' ');
        let now = read_moment(parts.next()?.as_bytes())?;
        let kind = match command {
            "keys" => FileKind::Keys,
            "days" => FileKind::Days,
            _ => FileKind::Register {
                meeting: read_meeting(parts.next()?.as_bytes())?,
                record_moment: read_moment(parts.next()?.as_bytes())?,
            },
        };
        Some(Handed { kind, now, bytes })
    }

    /// What the office asks with it, or its fault.
    pub fn request(&self, alloc: Global) -> Result<Request, FileError> {
        let mut source = SliceSource::new(self.bytes);
        match self.kind {
            FileKind::Keys => {
                let rows = read_keys(alloc, &mut source)?;
                Ok(Request::Desk(DeskRequest::Keys(rows)))
            }
            FileKind::Days => {
                let days = read_days(alloc, &mut source)?;
                Ok(Request::Desk(DeskRequest::ClosedDays(days)))
            }
            FileKind::Register {
                meeting,
                record_moment,
            } => {
                let rows = read_register(alloc, &mut source)?;
                let new = NewRegister {
                    record_moment,
                    rows,
                };
                let asked = OfficeRequest::LoadRegister(new);
                Ok(Request::Office { meeting, asked })
            }
        }
    }
}
