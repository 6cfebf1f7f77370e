//! An office in memory that stands for one in a file.
use any_office::Office;
use byte_io::Sink;
use cli_exit::Ended;
use desk_words::{Call, Caller, Failure, MeetingId, Reply, SecretKey};
use meeting_core::Book;
use office_file::OfficeFile;
use std::alloc::{AllocError, Global};

/// The office in a file, while it is open. A crash leaves it as it is.
#[derive(Drop)]
pub struct OpenBook {
    pub book: Book,
}

impl Office for OpenBook {
    ghost use Rattle.desk_words.specs.declared.office.OfficeLists.{OfficeLists};
    ghost use Rattle.desk_words.specs.declared.reply.Failure.TheVariants.{Memory};
    ghost use Rattle.std.specs.Prelude.{◌≡◌};

    ghost stands = { λ opened office. opened.book ≡ office };

    ghost is_reliable = { λ _. Unit {0} };

    ghost is_open = { λ _. Unit {0} };

    ghost faults = { λ _. 0 };

    ghost Left = { OfficeLists };

    ghost may_leave = { λ opened left. opened.book ≡ left };

    ghost opens_as = { λ left office. left ≡ office };

    ghost may_fail = { λ why. why ≡ Memory };

    fn caller_of(&mut self, key: &SecretKey) -> Result<Option<Caller>, Failure> {
        Office::caller_of(&mut self.book, key)
    }

    fn perform<T: Drop, F: FnOnce(&Reply) -> Result<T, AllocError>>(
        &mut self,
        call: Call,
        show: F,
    ) -> Result<T, Failure> {
        Office::perform(&mut self.book, call, show)
    }
}

impl OfficeFile for OpenBook {
    fn results<W: Sink>(&mut self, alloc: Global, meeting: MeetingId, writer: &mut W) -> Ended {
        desk_papers::show_results(alloc, &self.book.public_of(meeting), writer)
    }
}
