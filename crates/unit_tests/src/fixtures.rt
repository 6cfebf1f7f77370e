//! What the tests of proxies and polls share: a register, and the papers over it.
ghost use Rattle.std.specs.Prelude.{◌≡◌, []};

use desk_words::{
    Appointment, Authority, CastMark, DemandMark, Ending, Filed, HolderKind, Moment, Party,
    PresenceMark, Register, RegisterRow, Text, read_moment, read_party,
};
use proxy_rules::Papers;
use std::alloc::Global;
use std::test::Fail;

/// What is received in a meeting, nothing at first.
#[derive(Drop)]
pub(crate) struct Lists {
    pub(crate) appointments: Filed<Appointment>,
    pub(crate) endings: Filed<Ending>,
    pub(crate) authorities: Filed<Authority>,
    pub(crate) presences: Filed<PresenceMark>,
    pub(crate) demands: Filed<DemandMark>,
    pub(crate) casts: Filed<CastMark>,
}

impl Lists {
    pub(crate) fn new(alloc: Global) -> Lists
        ensures { result.appointments ≡ [] }
    {
        Lists {
            appointments: Filed::new(alloc),
            endings: Filed::new(alloc),
            authorities: Filed::new(alloc),
            presences: Filed::new(alloc),
            demands: Filed::new(alloc),
            casts: Filed::new(alloc),
        }
    }

    pub(crate) fn papers<'a>(&'a self, register: &'a [RegisterRow]) -> Papers<'a>
        ensures register { result.register.now ≡ register.now }
        ensures appointments { result.appointments.now ≡ self.now.appointments }
    {
        Papers {
            register,
            appointments: &self.appointments,
            endings: &self.endings,
            authorities: &self.authorities,
            presences: &self.presences,
            demands: &self.demands,
            casts: &self.casts,
        }
    }
}

pub(crate) fn party(name: &str) -> Result<Party, Fail> {
    Ok(read_party(name.as_bytes()).ok_or("a party")?)
}

pub(crate) fn moment(text: &str) -> Result<Moment, Fail> {
    Ok(read_moment(text.as_bytes()).ok_or("a moment")?)
}

fn row(alloc: Global, member: &str, kind: HolderKind, shares: u64) -> Result<RegisterRow, Fail> {
    Ok(RegisterRow {
        member: party(member)?,
        kind,
        name: Text::new(alloc, b"Ada").ok().ok_or("a text")?,
        shares,
        paid: 100,
    })
}

/// Holders, each with so many shares and 100 pence paid up on each.
pub(crate) fn register(
    alloc: Global,
    holdings: &[(&str, HolderKind, u64)],
) -> Result<Register, Fail> {
    let mut rows = Vec::new(alloc);
    for (member, kind, shares) in holdings {
        rows.push(row(alloc, member, *kind, *shares)?)?;
    }
    Ok(Register::new(rows).ok().ok_or("a register")?)
}
