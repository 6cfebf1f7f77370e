//! The files that hold offices.
ghost use Rattle.std.specs.Prelude.{◌≡◌, ℕ, List, IfErr, IfOk};
ghost use Rattle.any_office.specs.Storing.{IsStored};
ghost use Rattle.cli_exit.specs.Endings.{Ending, ended_view};
ghost use Rattle.desk_words.specs.Changes.{empty_office};
ghost use Rattle.desk_words.specs.declared.office.OfficeLists.{OfficeLists};

use cli_exit::Ended;
use office_file::OfficeFile;
use std::alloc::Global;

/// The files that hold offices, by their names.
pub trait OfficeFiles {
    /// The office in a file, while it is open.
    type File: OfficeFile;

    /// So far the files return what was written to them, and nothing else writes to them.
    ghost is_reliable: { Self → Type 0 };

    /// What a file may hold.
    ghost Left: { Type 0 };

    /// The file of that name may hold this, also after a crash.
    ghost may_hold: { Self → List ℕ → Self.Left → Type 0 };

    /// What a file holds is opened as this office.
    ghost opens_as: { Self.Left → OfficeLists → Type 0 };

    /// Holds of the files, a name, the office that is opened under it, and the files as they are
    /// then.
    ghost opens: { Self → List ℕ → Self.File → Self → Type 0 };

    /// Holds of the files, a name under which no office is opened, how the program then ends, and
    /// the files as they are then.
    ghost refuses: { Self → List ℕ → Ending → Self → Type 0 };

    /// Holds of the files, a name, the office as it is when it is closed under it, and the files
    /// as they are then.
    ghost closes: { Self → List ℕ → Self.File → Self → Type 0 };

    /// Holds of the files, a name under which a new office was made, or not, how the program then
    /// ends, and the files as they are then.
    ghost creates: { Self → List ℕ → Ending → Self → Type 0 };

    /// Makes a new office that holds nothing, and returns how that ends the program: with status 0
    /// where it was made.
    fn create(&mut self, name: &str) -> Ended
        ensures { creates self.old name.now (ended_view result) self.new };

    /// Opens the office of that name. Where none is opened, the program ends with what is returned.
    fn open(&mut self, alloc: Global, name: &str) -> Result<Self::File, Ended>
        ensures opened { IfOk result (λ file. opens self.old name.now file self.new) }
        ensures refused { IfErr result
            (λ ended. refuses self.old name.now (ended_view ended) self.new) };

    /// Closes the office of that name.
    fn close(&mut self, name: &str, file: Self::File)
        ensures { closes self.old name.now file self.new };

    /// The office as which all is opened that a file may hold is the one that is opened.
    ghost opens_stored: { (old new : Self) (name : List ℕ) (file : Self.File)
        (office : OfficeLists) → opens old name file new → Self.File.Office.is_reliable file
        → ((left : Self.Left) → may_hold old name left → opens_as left office)
        → IsStored Self.File.Office file office };

    /// What a file that is refused may hold is opened as what it could hold before.
    ghost refuses_held: { (old new : Self) (name : List ℕ) (end : Ending) (left : Self.Left)
        → refuses old name end new → is_reliable new → may_hold new name left
        → (was : Self.Left) × may_hold old name was
        × ((office : OfficeLists) → opens_as was office → opens_as left office) };

    /// What a file that is closed may hold is opened as what a crash may leave of it.
    ghost closes_held: { (old new : Self) (name : List ℕ) (file : Self.File) (left : Self.Left)
        → closes old name file new → is_reliable new → may_hold new name left
        → (crashed : Self.File.Office.Left) × Self.File.Office.may_leave file crashed
        × ((office : OfficeLists) → Self.File.Office.opens_as crashed office
        → opens_as left office) };

    /// The devices of a file that is closed returned what was written.
    ghost closes_reliable: { (old new : Self) (name : List ℕ) (file : Self.File)
        → closes old name file new → is_reliable new → Self.File.Office.is_reliable file };

    /// A file in which a new office was made is opened as the office that holds nothing.
    ghost creates_held: { (old new : Self) (name : List ℕ) (end : Ending) (left : Self.Left)
        → creates old name end new → is_reliable new → end.status ≡ 0
        → may_hold new name left → opens_as left empty_office };
}
