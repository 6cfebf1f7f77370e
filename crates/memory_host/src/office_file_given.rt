//! One file that holds an office.
use crate::open_book::OpenBook;
use crate::stored::Stored;
use cli_exit::{Ended, ExitError};
use host::OfficeFiles;
use meeting_core::Book;
use std::alloc::Global;

/// One file of this name, for an office.
#[derive(Drop)]
pub struct OfficeFileGiven<'a> {
    pub alloc: Global,
    pub name: &'a str,
    pub stored: Stored,
}

impl OfficeFiles for OfficeFileGiven<'_> {
    ghost use Rattle.std.specs.Prelude.{◌≡◌};
    ghost use Rattle.desk_words.specs.declared.office.OfficeLists.{OfficeLists};
    ghost use Rattle.memory_host.specs.OneOffice.{Creates, MayHold, Opens, Refuses};
    ghost use Rattle.memory_host.specs.declared.stored.Stored.TheVariants as stored;
    ghost use Rattle.memory_host.specs.OneOfficeLaws as laws;

    type File = OpenBook;

    ghost is_reliable = { λ _. Unit {0} };

    ghost Left = { OfficeLists };

    ghost may_hold = { λ files name left. MayHold (name ≡ files.name.now) files.stored left };

    ghost opens_as = { λ left office. left ≡ office };

    ghost opens = { λ old name file new.
        (name ≡ old.name.now) × (Opens old.stored file new.stored × (new.name ≡ old.name)) };

    ghost refuses = { λ old name end new. Refuses (name ≡ old.name.now) old.stored end × (new ≡ old) };

    ghost closes = { λ old name file new.
        (new.stored ≡ stored.Office file) × (new.name ≡ old.name) };

    ghost creates = { λ old name end new.
        (new.name ≡ old.name) × Creates (name ≡ old.name.now) old.stored end new.stored };

    fn create(&mut self, name: &str) -> Ended {
        if name != self.name {
            return Ended::by(ExitError::Store);
        }
        let Stored::Nothing = &self.stored else {
            return Ended::by(ExitError::NotEmpty);
        };
        self.stored = Stored::Office(OpenBook {
            book: Book::new(self.alloc),
        });
        Ended::with_word("created")
    }

    fn open(&mut self, _alloc: Global, name: &str) -> Result<OpenBook, Ended> {
        if name != self.name {
            return Err(Ended::by(ExitError::Store));
        }
        match std::mem::replace(&mut self.stored, Stored::Opened) {
            Stored::Office(office) => Ok(office),
            other => {
                self.stored = other;
                Err(Ended::by(ExitError::Store))
            }
        }
    }

    fn close(&mut self, _name: &str, file: OpenBook)
        ensures { (self.new.stored ≡ stored.Office file) × (self.new.name ≡ self.old.name) }
    {
        self.stored = Stored::Office(file);
    }

    ghost opens_stored = { λ old new name file office opens _ stores.
        laws.opened (name ≡ old.name.now) old.stored new.stored file office opens.0 opens.1.0 stores };

    ghost refuses_held = { λ old new name end left refuses _ may.
        laws.preserved (λ files left. MayHold (name ≡ files.name.now) files.stored left)
        old new left refuses.1 may };

    ghost closes_held = { λ old new name file left closes _ may.
        laws.closed (name ≡ new.name.now) new.stored file left closes.0 may };

    ghost closes_reliable = { λ _ _ _ _ _ _. tt };

    ghost creates_held = { λ old new name end left creates _ zero may.
        laws.created (name ≡ new.name.now) (name ≡ old.name.now) old.stored end new.stored left
        creates.1 zero may };
}
