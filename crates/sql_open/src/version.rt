//! Which version the tables are.
ghost use Rattle.std.specs.Prelude.{◌≡◌, ◌⊎◌, false, [], ◌∷◌, Err, IfErr, IfOk, IsTrue, List, Some};
ghost use Rattle.sql_open.specs.Known.{ShowsKnown, edition_of};
ghost use Rattle.sql_open.specs.Opening.{IsFaultOf, IsVersionFault, ShowsLater, ReturnsVersion};
ghost use Rattle.sql_open.specs.declared.fault.OpenFault.TheVariants.{NotADesk, NewerVersion};
ghost use Rattle.sql_model.specs.Standing.{HasNoVersion, IsVersionOf};
ghost use Rattle.sql_schema.specs.Contents.{desk};
ghost use Rattle.sql_schema.specs.Statements.{WasOpen, records_in};
ghost use Rattle.sql_rows.specs.Meanings.{all_meanings};
ghost use Rattle.sql_desk_tables.specs.Versions.{AreNoted, ShowsVersions};
ghost use Rattle.sql_load.specs.LoadResults.{ReadAgrees, any_at_all};
ghost use Rattle.sqlite.specs.Held.{state};
ghost use Rattle.sqlite.specs.Order.{Row};
ghost use Rattle.sqlite.specs.State.{HasCleanDisk, Survives};

use crate::fault::OpenFault;
use desk_words::Listing;
use sql_desk_tables::{columns, desk};
use sql_load::LoadError;
use sql_rows::{Version, records};
use sqlite::{Alter, Connection, Transaction};
use std::alloc::Global;

/// A version of the tables that this program opens.
#[derive(Clone, Copy, PartialEq, Eq)]
pub enum KnownVersion {
    /// Version 1, whose meetings have one session each. It is moved to version 2.
    One,
    /// Version 2, which this program makes.
    Two,
}

/// The versions that the tables note. The fault is `NoOffice` only where a row notes none.
fn read_versions<S: Alter>(
    tx: &mut Transaction<'_, S>,
    alloc: Global,
) -> Result<Listing<Version>, LoadError>
    ensures same_reference { tx.new.conn.ghost_name ≡ tx.old.conn.ghost_name }
    ensures holds { HasCleanDisk (state S.Store tx.new.conn.now)
        → AreNoted (state S.Store tx.old.conn.now)
        → ReadAgrees any_at_all result (records_in desk (state S.Store tx.old.conn.now).now.trees) }
    ensures shown { HasCleanDisk (state S.Store tx.new.conn.now) → IfOk result (λ versions.
        (rows : List Row) × ShowsVersions S.Store (state S.Store tx.old.conn.now).now rows
        × (all_meanings desk.means rows ≡ Some versions)) }
    ensures was_open { WasOpen (state S.Store tx.old.conn.now) (state S.Store tx.new.conn.now) }
    ensures crash { Survives (state S.Store tx.old.conn.now) (state S.Store tx.new.conn.now)
        (λ _. ⊥) }
{
    let rows = desk::all(tx)?;
    Ok(Listing::from_vec(records(alloc, &rows)?))
}

/// The version that is noted, where it is known, and it alone.
fn judge_versions(versions: &[Version]) -> Result<KnownVersion, OpenFault>
    ensures known { IfOk result (λ known. versions.now ≡ (edition_of known).version ∷ []) }
    ensures fault { IfErr result (λ fault. IsVersionFault fault versions.now) }
{
    if versions.len() != 1 {
        return Err(OpenFault::NotADesk);
    }
    match versions[0].number {
        0 => Err(OpenFault::NotADesk),
        1 => Ok(KnownVersion::One),
        2 => Ok(KnownVersion::Two),
        _ => Err(OpenFault::NewerVersion),
    }
}

/// Which version the tables are, whatever tables they are.
fn read_version<S: Alter>(
    tx: &mut Transaction<'_, S>,
    alloc: Global,
) -> Result<KnownVersion, OpenFault>
    ensures same_reference { tx.new.conn.ghost_name ≡ tx.old.conn.ghost_name }
    ensures holds { ReturnsVersion S.Store tx.old.conn.now tx.new.conn.now result }
{
    let versions = read_versions(tx, alloc)?;
    judge_versions(versions.as_slice())
}

/// Which version the tables are, read in one transaction, which is rolled back.
fn ask_version<S: Alter>(conn: &mut Connection<S>, alloc: Global) -> Result<KnownVersion, OpenFault>
    requires { conn.old.in_transaction ≡ false }
    ensures ended { conn.new.in_transaction ≡ false }
    ensures crash { Survives (state S.Store conn.old) (state S.Store conn.new) (λ _. ⊥) }
    ensures was_open { WasOpen (state S.Store conn.old) (state S.Store conn.new) }
    ensures preserved { HasCleanDisk (state S.Store conn.new) → IsTrue (state S.Store conn.old).is_open
        → IsTrue (state S.Store conn.new).is_open
        → (state S.Store conn.new).now.trees ≡ (state S.Store conn.old).now.trees }
    ensures noted { HasCleanDisk (state S.Store conn.new) → AreNoted (state S.Store conn.old)
        → IfOk result (λ known. IsVersionOf (edition_of known) (state S.Store conn.old)) }
    ensures shown { HasCleanDisk (state S.Store conn.new)
        → IfOk result (ShowsKnown S.Store (state S.Store conn.old).now) }
    ensures cause { HasCleanDisk (state S.Store conn.new) → AreNoted (state S.Store conn.old)
        → IfErr result (λ fault. IsFaultOf HasNoVersion fault (state S.Store conn.old)) }
    ensures newer { HasCleanDisk (state S.Store conn.new) → result ≡ Err NewerVersion
        → ShowsLater S.Store (state S.Store conn.old).now }
{
    let _ = conn.is_autocommit();
    let mut tx = conn.transaction();
    let read = read_version(&mut tx, alloc);
    tx.rollback();
    let _ = conn.is_autocommit();
    read
}

/// Judges which version the tables are, whatever tables they are. A version is returned only where the
/// text that reads the version shows it, and the fault is `NewerVersion` only where it shows a later
/// one. Of tables that note their version it is `NotADesk` only where they note none.
pub(crate) fn judge_version<S: Alter>(
    conn: &mut Connection<S>,
    alloc: Global,
) -> Result<KnownVersion, OpenFault>
    requires { conn.old.in_transaction ≡ false }
    ensures ended { conn.new.in_transaction ≡ false }
    ensures crash { Survives (state S.Store conn.old) (state S.Store conn.new) (λ _. ⊥) }
    ensures same { HasCleanDisk (state S.Store conn.new) → IsTrue (state S.Store conn.new).is_open
        → IsTrue (state S.Store conn.old).is_open
        × ((state S.Store conn.new).now ≡ (state S.Store conn.old).now) }
    ensures noted { HasCleanDisk (state S.Store conn.new) → AreNoted (state S.Store conn.old)
        → IfOk result (λ known. IsVersionOf (edition_of known) (state S.Store conn.old)) }
    ensures shown { HasCleanDisk (state S.Store conn.new)
        → IfOk result (ShowsKnown S.Store (state S.Store conn.old).now) }
    ensures cause { HasCleanDisk (state S.Store conn.new) → AreNoted (state S.Store conn.old)
        → IfErr result (λ fault. IsFaultOf HasNoVersion fault (state S.Store conn.old)) }
    ensures newer { HasCleanDisk (state S.Store conn.new) → result ≡ Err NewerVersion
        → ShowsLater S.Store (state S.Store conn.old).now }
    ensures was_open { HasCleanDisk (state S.Store conn.new) → IfErr result (λ fault.
        (fault ≡ NotADesk) ⊎ (fault ≡ NewerVersion) → IsTrue (state S.Store conn.old).is_open) }
{
    let _ = conn.schema();
    columns::ask_version(conn)?;
    let asked = ask_version(conn, alloc);
    let _ = conn.schema();
    asked
}
