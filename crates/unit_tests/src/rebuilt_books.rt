//! Books of lists that were kept elsewhere.
use crate::book::open_poll;
use desk_words::{
    Appointment, DayList, Filed, HolderKind, Instr, Instructions, KeyRows, Listing, Meeting,
    MeetingLists, OfficeLists, Party, Range, RegisterRow, Text, read_meeting, read_moment,
    read_party,
};
use meeting_core::{Book, BookFault};
use std::alloc::Global;
use std::test::Fail;

fn party(name: &[u8]) -> Result<Party, Fail> {
    Ok(read_party(name).ok_or("a party")?)
}

/// A meeting that is opened and has two resolutions, as a book shows it.
fn meeting(alloc: Global) -> Result<Meeting, Fail> {
    let book = open_poll(alloc)?;
    let june = read_meeting(b"G1").ok_or("a meeting")?;
    let meeting: &Meeting = book.public_of(june).meeting().ok_or("no meeting")?;
    Ok(meeting.clone()?)
}

fn row(alloc: Global, member: &[u8], shares: u64) -> Result<RegisterRow, Fail> {
    let name = Text::new(alloc, b"Ada").ok().ok_or("a text")?;
    Ok(RegisterRow {
        member: party(member)?,
        kind: HolderKind::Individual,
        name,
        shares,
        paid: 100,
    })
}

/// Rows that are not in order.
fn register(alloc: Global) -> Result<Listing<RegisterRow>, Fail> {
    let mut register: Listing<RegisterRow> = Listing::new(alloc);
    register.push(row(alloc, b"M2", 50)?)?;
    register.push(row(alloc, b"M1", 100)?)?;
    Ok(register)
}

/// The lists of the meeting, with a register whose rows are not in order.
fn shuffled(alloc: Global) -> Result<MeetingLists, Fail> {
    let meeting = meeting(alloc)?;
    let register = register(alloc)?;
    Ok(MeetingLists {
        meeting,
        register,
        appointments: Filed::new(alloc),
        endings: Filed::new(alloc),
        authorities: Filed::new(alloc),
        presences: Filed::new(alloc),
        demands: Filed::new(alloc),
        polls: Listing::new(alloc),
        casts: Filed::new(alloc),
    })
}

fn appointment(number: u64) -> Result<Appointment, Fail> {
    Ok(Appointment {
        member: party(b"M1")?,
        number,
        proxy: party(b"P")?,
        range: Range::new(1, 10).ok_or("a range")?,
        instructions: Instructions::new(&[Instr::Free, Instr::Free]).ok_or("instructions")?,
        moment: read_moment(b"2026-06-02T09:00:00").ok_or("a moment")?,
    })
}

/// Adds an appointment of that number.
fn appoint(lists: &mut MeetingLists, number: u64) -> Result<(), Fail> {
    lists.appointments.push(appointment(number)?)?;
    Ok(())
}

fn meetings(alloc: Global, lists: Option<MeetingLists>) -> Result<Listing<MeetingLists>, Fail> {
    let mut meetings: Listing<MeetingLists> = Listing::new(alloc);
    if let Some(lists) = lists {
        meetings.push(lists)?;
    }
    Ok(meetings)
}

fn book_of(alloc: Global, lists: Option<MeetingLists>) -> Result<Result<Book, BookFault>, Fail> {
    let meetings = meetings(alloc, lists)?;
    let keys = KeyRows::empty(alloc);
    let closed = DayList::empty(alloc);
    let office = OfficeLists {
        keys,
        closed,
        meetings,
    };
    Ok(Book::of_lists(alloc, office))
}

#[test]
fn empty_lists_are_an_office(rt: HostRuntime) -> Result<(), Fail> {
    assert!(rt; book_of(rt.alloc(), None)?.is_ok());
    Ok(())
}

#[test]
fn a_register_comes_in_any_order(rt: HostRuntime) -> Result<(), Fail> {
    let lists = shuffled(rt.alloc())?;
    assert!(rt; book_of(rt.alloc(), Some(lists))?.is_ok());
    Ok(())
}

#[test]
fn appointments_numbered_1_and_3_are_no_office(rt: HostRuntime) -> Result<(), Fail> {
    let mut lists = shuffled(rt.alloc())?;
    appoint(&mut lists, 1)?;
    appoint(&mut lists, 3)?;
    let fault = book_of(rt.alloc(), Some(lists))?.err();
    assert!(rt; fault == Some(BookFault::NoOffice));
    Ok(())
}
