//! Files that hold tables.
ghost use Rattle.std.specs.Prelude.{◌≡◌, false, true, ℕ, List, [], IfErr, IfOk, OnErr};
ghost use Rattle.file_probe.specs.DeskFileErrors.{IsUnmade, IsUnreadable};
ghost use Rattle.sql_open.specs.Rising.{RowsRise};
ghost use Rattle.sql_file.specs.ClosedFiles.{HoldsWhatIsLeft};
ghost use Rattle.sqlite.specs.Held.{Held, state};
ghost use Rattle.sqlite.specs.State.{HasCleanDisk};
ghost use Rattle.sqlite.specs.Tree.{Trees};
ghost use Rattle.sql_file.specs.declared.files.SystemFiles.{SystemFiles};

use file_probe::{DeskFileError, FileState};
use http_server::Log;
use sqlite::{Alter, Connection};
use std::rt::HostRuntime;

/// Why a file is not opened as a database.
#[derive(Clone, Copy, PartialEq, Eq)]
pub enum ConnectError {
    /// The system refuses its name or that of its log.
    CannotOpen,
    /// It is a database whose rows are not as it declares them, or none.
    NotADatabase,
    /// An allocation was refused.
    Memory,
    /// It cannot be read or written.
    Store,
}

/// The files of a system, of which a program opens one, and once: what a file holds is known as it is
/// opened first, and then by the store that was let go.
#[derive(Drop)]
pub struct SystemFiles<S> {
    pub(crate) system: HostRuntime,
    /// Whether a file was opened, or removed.
    pub(crate) is_used: bool,
    /// The stores that were let go. Only clauses read them.
    pub(crate) let_go: Log<S, ()>,
}

impl<S> SystemFiles<S> {
    /// The files of this system.
    pub fn new(system: HostRuntime) -> SystemFiles<S>
        ensures unused { result.is_used ≡ false }
        ensures none { result.let_go.items ≡ [] }
    {
        SystemFiles {
            system,
            is_used: false,
            let_go: Log::new(),
        }
    }

    /// Marks that a file was opened, or removed, and that none was closed.
    pub(crate) fn use_up(&mut self)
        ensures used { self.new.is_used ≡ true }
        ensures none { self.new.let_go.items ≡ [] }
    {
        self.is_used = true;
        self.let_go = Log::new();
    }
}

/// The store of the tables in a file of the system, while it is open. Its ghost members say what
/// becomes of the files.
pub trait TableFile: Alter + Drop {
    /// So far the files return what was written to them, and nothing else writes to them.
    ghost is_reliable: { SystemFiles Self → Type 0 };

    /// The file of that name may hold these tables, in it and in its log.
    ghost may_hold: { SystemFiles Self → List ℕ → Trees → Type 0 };

    /// Holds of the files, a name, the file of that name as it is opened as a database, and the files
    /// as they are then.
    ghost finds: { SystemFiles Self → List ℕ → Held Self → SystemFiles Self → Type 0 };

    /// Holds of the files, a name under which no database is opened, and the files as they are then.
    ghost refuses: { SystemFiles Self → List ℕ → SystemFiles Self → Type 0 };

    /// Holds of the files, a name under which an empty file is made, if nothing has it, and the files
    /// as they are then.
    ghost makes: { SystemFiles Self → List ℕ → SystemFiles Self → Type 0 };

    /// Holds of the files, a name whose file is removed, and the files as they are then.
    ghost removes: { SystemFiles Self → List ℕ → SystemFiles Self → Type 0 };

    /// Holds of the files, a name, the store of the file of that name as it is given up, and the files
    /// as they are then.
    ghost gives_up: { SystemFiles Self → List ℕ → Self → SystemFiles Self → Type 0 };

    /// Holds of the files, a name, the store of the file of that name as it is closed, and the files
    /// as they are then.
    ghost closes: { SystemFiles Self → List ℕ → Self → SystemFiles Self → Type 0 };

    /// What stands under a name, and in the log beside it.
    fn probe(files: &SystemFiles<Self>, name: &str) -> Result<FileState, DeskFileError>
        ensures { IfErr result IsUnreadable };

    /// Makes an empty file that its owner alone can read and write, and tells whether it did. What
    /// stands under that name already is left as it is.
    fn make_file(files: &mut SystemFiles<Self>, name: &str) -> Result<bool, DeskFileError>
        ensures made { IfOk result (λ _. makes files.old name.now files.new) }
        ensures unmade { IfErr result (λ why. IsUnmade why × (files.new ≡ files.old)) };

    /// Removes a file that was just made.
    fn remove_file(files: &mut SystemFiles<Self>, name: &str)
        ensures { removes files.old name.now files.new };

    /// Opens a file as a database. It is made where it is not there.
    fn connect(files: &mut SystemFiles<Self>, name: &str) -> Result<Connection<Self>, ConnectError>
        ensures found { IfOk result (λ conn. finds files.old name.now conn files.new) }
        ensures none { IfOk result (λ conn. conn.in_transaction ≡ false) }
        ensures rising { IfOk result (λ conn. HasCleanDisk (state Self.Store conn)
            → RowsRise (state Self.Store conn)) }
        ensures refused { OnErr result (refuses files.old name.now files.new) };

    /// Gives up a file that is open. What was not committed is lost, and nothing is copied from its
    /// log.
    fn give_up(self, files: &mut SystemFiles<Self>, name: &str)
        ensures { gives_up files.old name.now self files.new };

    /// Copies what was committed from the log into the file, and closes both. What was not committed
    /// is lost. Where copying fails, what was committed is in the log, and the next opening finds it
    /// there.
    fn close(self, files: &mut SystemFiles<Self>, name: &str)
        ensures { closes files.old name.now self files.new };

    /// A file that is opened held what is found in it.
    ghost finds_held: { (old new : SystemFiles Self) (name : List ℕ) (conn : Held Self)
        → finds old name conn new → HasCleanDisk (state Self.Store conn)
        → may_hold old name (state Self.Store conn).now.trees };

    /// A file that is refused holds what it held.
    ghost refuses_held: { (old new : SystemFiles Self) (name : List ℕ) (db : Trees)
        → refuses old name new → is_reliable new → may_hold new name db → may_hold old name db };

    /// A file that is given up holds what a crash may leave of it, its disk returned what was written,
    /// and it held what a crash could leave of it as it was opened.
    ghost gives_up_held: { (old between new : SystemFiles Self) (name : List ℕ) (conn : Held Self)
        (store : Self) → finds old name conn between → gives_up between name store new
        → is_reliable new → HoldsWhatIsLeft Self.Store store (may_hold new name)
        × ((db : Trees) → (state Self.Store conn).may_leave db → may_hold old name db) };

    /// A file that is closed holds what a crash may leave of it, and its disk returned what was
    /// written.
    ghost closes_held: { (old new : SystemFiles Self) (name : List ℕ) (store : Self)
        → closes old name store new → is_reliable new
        → HoldsWhatIsLeft Self.Store store (may_hold new name) };
}
