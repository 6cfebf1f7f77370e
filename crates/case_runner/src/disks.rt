//! A database file and the log beside it, in memory, of which one stops after so many calls.
use crate::two_files::ask_in;
use case_desks::{Asked, DeskFiles, Outcome, Stop};
use sqlite::Files;
use sqlite_disk::{Crash, Disk, Fuse, Memory};
use std::alloc::{AllocError, Global};
use std::mem;

/// A file that holds what another one holds, all of it synced, and stops after so many calls.
fn copied(alloc: Global, file: &Fuse<Memory>, calls: u64) -> Result<Fuse<Memory>, AllocError> {
    let mut memory = Memory::new(alloc);
    if memory.write_at(0, file.inner().bytes()).is_err() || memory.sync().is_err() {
        return Err(AllocError);
    }
    Ok(Fuse::new(memory, calls))
}

/// Two empty files, of which none stops.
fn empty(alloc: Global) -> Files<Fuse<Memory>> {
    Files {
        log: Fuse::new(Memory::new(alloc), u64::MAX),
        db: Fuse::new(Memory::new(alloc), u64::MAX),
    }
}

/// Whether a file has no call left.
fn has_stopped(file: &mut Fuse<Memory>) -> bool {
    !file.may_be_used() || file.len().is_err()
}

/// A database file and the log beside it. It alone names the store over them, so that what uses it
/// proves nothing of that store again.
pub struct Disks {
    alloc: Global,
    files: Files<Fuse<Memory>>,
}

// It is written out, so that a caller does not prove again how each part is dropped.
impl Drop for Disks {
    fn drop(self) {
        let Disks { alloc: _, files: _ } = self;
    }
}

impl DeskFiles for Disks {
    fn new(alloc: Global) -> Disks {
        Disks {
            alloc,
            files: empty(alloc),
        }
    }

    fn copy(&self, stop: Stop) -> Result<Disks, AllocError> {
        let (log_calls, db_calls) = stop.calls();
        let files = Files {
            log: copied(self.alloc, &self.files.log, log_calls)?,
            db: copied(self.alloc, &self.files.db, db_calls)?,
        };
        Ok(Disks {
            alloc: self.alloc,
            files,
        })
    }

    fn ask(&mut self, asked: &Asked) -> Outcome {
        let files = mem::replace(&mut self.files, empty(self.alloc));
        if !files.may_be_used() {
            return Err("no files");
        }
        let (answer, files) = ask_in(self.alloc, files, asked);
        self.files = files;
        answer
    }

    fn are_like(&self, other: &Disks) -> bool {
        let (files, others) = (&self.files, &other.files);
        files.log.inner().bytes() == others.log.inner().bytes()
            && files.db.inner().bytes() == others.db.inner().bytes()
    }

    fn have_stopped(&mut self) -> bool {
        has_stopped(&mut self.files.log) || has_stopped(&mut self.files.db)
    }

    fn cut_power(&mut self) {
        self.files.log.crash();
        self.files.db.crash();
    }
}
