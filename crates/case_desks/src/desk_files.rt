//! A desk in two files behind a trait: what is asked of it, and the files that stop.
use crate::asked::{Asked, Outcome};
use std::alloc::{AllocError, Global};

/// Which of two files stops, and after how many calls of it; each later call of it fails.
#[derive(Clone, Copy)]
pub enum Stop {
    Never,
    Log(u64),
    Database(u64),
}

impl Stop {
    /// How many calls of the log are made, and of the database.
    pub fn calls(self) -> (u64, u64) {
        match self {
            Stop::Never => (u64::MAX, u64::MAX),
            Stop::Log(calls) => (calls, u64::MAX),
            Stop::Database(calls) => (u64::MAX, calls),
        }
    }

    /// The stop to be tried after this one: one call later, or that of the other file where this
    /// one came too late to stop anything.
    pub(crate) fn next(self, has_stopped: bool) -> Stop {
        match self {
            Stop::Log(calls) if has_stopped => Stop::Log(calls.saturating_add(1)),
            Stop::Log(_) => Stop::Database(0),
            Stop::Database(calls) if has_stopped => Stop::Database(calls.saturating_add(1)),
            _ => Stop::Never,
        }
    }
}

/// A database file and the log beside it, of which one may stop after so many calls.
pub trait DeskFiles: Drop {
    /// Two empty files, of which none stops.
    fn new(alloc: Global) -> Self;

    /// Files that hold the same, all of it synced, of which one stops. The error is want of memory.
    fn copy(&self, stop: Stop) -> Result<Self, AllocError>;

    /// What is answered over them.
    fn ask(&mut self, asked: &Asked) -> Outcome;

    /// Whether they hold the same bytes.
    fn are_like(&self, other: &Self) -> bool;

    /// Whether one of them has no call left.
    fn have_stopped(&mut self) -> bool;

    /// Takes from them what no sync made last, as a power cut does.
    fn cut_power(&mut self);
}
