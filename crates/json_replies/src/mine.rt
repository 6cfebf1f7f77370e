//! A party's own things, as JSON.
ghost use Rattle.std.specs.Prelude.{◌≡◌, [], ◌∷◌, codes, OnOk};
ghost use Rattle.json_replies.specs.Forms.{array_of, decimal_data, moment_data, only_if};
ghost use Rattle.json_replies.specs.ReplyMembers.{mine_head, mine_rest};
ghost use Rattle.json_replies.specs.Replies.{row_data, person_data, authorised_data, demand_data, cast_kind_data, cast_data, is_present_in, sessions_present, mine_data};
ghost use Rattle.json_replies.specs.Writing.{WritesMembers, WritesValue};

use crate::shown::{
    Shown, is_adjourned, put_list, put_number, put_or_null, put_text, put_truth, write_number,
};
use desk_words::{
    Authorised, Authority, Block, CastKind, CastMark, DemandMark, Mine, Moment, RegisterRow,
    write_moment,
};
use json::Writer;
use std::alloc::AllocError;

impl Shown for Moment {
    ghost shown = { moment_data };

    fn write(&self, out: &mut Writer) -> Result<(), AllocError> {
        let text = write_moment(*self);
        out.string(str::from_utf8(&text).unwrap())
    }
}

impl Shown for RegisterRow {
    ghost shown = { row_data };

    fn write(&self, out: &mut Writer) -> Result<(), AllocError> {
        out.begin_object()?;
        put_text(out, "kind", self.kind.word())?;
        put_text(out, "name", self.name.as_str())?;
        put_number(out, "paid", self.paid)?;
        put_number(out, "shares", self.shares)?;
        out.end_object()
    }
}

impl Shown for Authority {
    ghost shown = { person_data };

    fn write(&self, out: &mut Writer) -> Result<(), AllocError> {
        out.string(self.person.as_str())
    }
}

impl Shown for Authorised {
    ghost shown = { authorised_data };

    fn write(&self, out: &mut Writer) -> Result<(), AllocError> {
        out.begin_object()?;
        put_text(out, "corporation", self.corporation.as_str())?;
        put_number(out, "shares", self.shares)?;
        out.end_object()
    }
}

impl Shown for DemandMark {
    ghost shown = { demand_data };

    fn write(&self, out: &mut Writer) -> Result<(), AllocError> {
        write_number(out, self.resolution)
    }
}

fn write_block(out: &mut Writer, resolution: u64, block: Block) -> Result<(), AllocError>
    ensures { OnOk result
        (WritesValue (cast_kind_data resolution (CastKind.Block block)) out.old out.new) }
{
    out.begin_object()?;
    put_text(out, "as", block.capacity.word())?;
    put_number(out, "from", block.range.from())?;
    put_text(out, "member", block.member.as_str())?;
    put_number(out, "resolution", resolution)?;
    put_number(out, "to", block.range.to())?;
    put_text(out, "way", block.way.word())?;
    out.end_object()
}

fn write_as_instructed(out: &mut Writer, resolution: u64) -> Result<(), AllocError>
    ensures { OnOk result
        (WritesValue (cast_kind_data resolution CastKind.AsInstructed) out.old out.new) }
{
    out.begin_object()?;
    put_text(out, "as", "instructed")?;
    put_number(out, "resolution", resolution)?;
    out.end_object()
}

impl Shown for CastMark {
    ghost shown = { cast_data };

    fn write(&self, out: &mut Writer) -> Result<(), AllocError> {
        match self.what {
            CastKind::Block(block) => write_block(out, self.resolution, block),
            CastKind::AsInstructed => write_as_instructed(out, self.resolution),
        }
    }
}

/// Writes the members before the meeting's name.
fn put_mine_head(out: &mut Writer, mine: &Mine) -> Result<(), AllocError>
    ensures { OnOk result (WritesMembers (mine_head mine.now) out.old out.new) }
{
    put_list(out, "authorised", mine.authorised.as_slice())?;
    put_list(out, "casts", mine.casts.as_slice())?;
    put_list(out, "demands", mine.demands.as_slice())?;
    put_list(out, "given", mine.given.as_slice())
}

/// Whether the party is present in a session.
fn is_present_in(mine: &Mine, number: u64) -> bool
    ensures { result ≡ is_present_in mine.now.presences number }
{
    mine.presences
        .as_slice()
        .iter()
        .any(|session| *session == number)
}

/// Writes the sessions in which the party is present, in the order of their numbers.
fn write_presences(out: &mut Writer, mine: &Mine) -> Result<(), AllocError>
    ensures { OnOk result
        (WritesValue (array_of decimal_data (sessions_present mine.now)) out.old out.new) }
{
    out.begin_array()?;
    let last = mine.session;
    let mut session = 0;
    while session < last {
        session += 1;
        if is_present_in(mine, session) {
            write_number(out, session)?;
        }
    }
    out.end_array()
}

/// Writes the member that is the list of these sessions.
fn put_presences(out: &mut Writer, mine: &Mine) -> Result<(), AllocError>
    ensures { OnOk result (WritesMembers
        ((codes "presences", array_of decimal_data (sessions_present mine.now)) ∷ []) out.old out.new) }
{
    out.key("presences")?;
    write_presences(out, mine)
}

/// Writes the same where the test holds.
fn put_presences_if(out: &mut Writer, holds: bool, mine: &Mine) -> Result<(), AllocError>
    ensures { OnOk result (WritesMembers (only_if holds
        (codes "presences", array_of decimal_data (sessions_present mine.now)) []) out.old out.new) }
{
    if holds {
        put_presences(out, mine)
    } else {
        Ok(())
    }
}

/// Writes the members after the persons whom the party authorised.
fn put_mine_rest(out: &mut Writer, mine: &Mine) -> Result<(), AllocError>
    ensures { OnOk result (WritesMembers (mine_rest mine.now) out.old out.new) }
{
    put_presences_if(out, is_adjourned(mine.session), mine)?;
    put_truth(out, "present", is_present_in(mine, mine.session))?;
    put_list(out, "received", mine.received.as_slice())?;
    put_or_null(out, "row", &mine.row)
}

/// Writes the object that answers a party that asks for its own things.
pub(crate) fn write_mine(out: &mut Writer, mine: &Mine) -> Result<(), AllocError>
    ensures { OnOk result (WritesValue (mine_data mine.now) out.old out.new) }
{
    out.begin_object()?;
    put_mine_head(out, mine)?;
    put_text(out, "meeting", mine.meeting.as_str())?;
    put_text(out, "ok", "mine")?;
    put_list(out, "persons", mine.persons.as_slice())?;
    put_mine_rest(out, mine)?;
    out.end_object()
}
