//! The texts of replies.
ghost use Rattle.std.specs.Prelude.{◌≡◌, ◌++◌, Some, IfOk, IfSome, OnOk, codes};
ghost use Rattle.desk_words.specs.declared.reply.Reply.TheVariants as any_reply;
ghost use Rattle.serde_json.specs.Read.{read};
ghost use Rattle.json_replies.specs.Replies.{ok_data, numbered_ok_data, declaration_data, refusal_data};
ghost use Rattle.json_replies.specs.Replies.{reply_data, reply_bytes};
ghost use Rattle.json_replies.specs.AppointmentJson.{appointed_data, use_word};
ghost use Rattle.serde_json.specs.Written.{compact_text};
ghost use Rattle.json_replies.specs.Writing.{WritesValue};

use crate::appointment::write_appointed;
use crate::last_notice::LastNotice;
use crate::mine::write_mine;
use crate::notice::{put_result_head, write_notice};
use crate::shown::{put_number, put_text};
use desk_words::{AppointmentReceipt, AppointmentUse, Boxed, Declaration, Refusal, Reply};
use itoa::Buffer;
use json::Writer;
use std::alloc::{AllocError, Global};

// What the text of a short reply has room in, so that its buffer grows for no token.
const SHORT_TEXT: usize = 128;

// What the text of most notices and own things has room in.
const LONG_TEXT: usize = 1_024;

/// The room in which the text of a reply is begun.
fn room_for(reply: &Reply) -> usize {
    match reply {
        Reply::Notice(_) | Reply::Mine(_) => LONG_TEXT,
        _ => SHORT_TEXT,
    }
}

fn write_ok(out: &mut Writer, word: &str) -> Result<(), AllocError>
    ensures { OnOk result (WritesValue (ok_data word.now) out.old out.new) }
{
    out.begin_object()?;
    put_text(out, "ok", word)?;
    out.end_object()
}

fn write_numbered_ok(out: &mut Writer, number: u64, word: &str) -> Result<(), AllocError>
    ensures { OnOk result (WritesValue (numbered_ok_data number word.now) out.old out.new) }
{
    out.begin_object()?;
    put_number(out, "number", number)?;
    put_text(out, "ok", word)?;
    out.end_object()
}

fn write_declaration(out: &mut Writer, declared: Declaration) -> Result<(), AllocError>
    ensures { OnOk result (WritesValue (declaration_data declared) out.old out.new) }
{
    out.begin_object()?;
    put_result_head(out, declared)?;
    put_text(out, "ok", "declared")?;
    put_number(out, "withheld", declared.tally.withheld)?;
    out.end_object()
}

fn write_refusal(out: &mut Writer, refusal: Refusal) -> Result<(), AllocError>
    ensures { OnOk result (WritesValue (refusal_data refusal) out.old out.new) }
{
    out.begin_object()?;
    put_number(out, "code", u64::from(refusal.number()))?;
    put_text(out, "refused", refusal.name())?;
    out.end_object()
}

fn write_reply(out: &mut Writer, reply: &Reply) -> Result<(), AllocError>
    ensures { OnOk result (WritesValue (reply_data reply.now) out.old out.new) }
{
    match reply {
        Reply::Called => write_ok(out, "called"),
        Reply::Loaded => write_ok(out, "loaded"),
        Reply::Same => write_ok(out, "same"),
        Reply::MeetingOpened => write_ok(out, "opened"),
        Reply::Adjourned(number) => write_numbered_ok(out, *number, "adjourned"),
        Reply::Ordered => write_ok(out, "ordered"),
        Reply::Started => write_ok(out, "started"),
        Reply::VotingClosed => write_ok(out, "closed"),
        Reply::Declared(declared) => write_declaration(out, *declared),
        Reply::Notice(notice) => write_notice(out, notice.get()),
        Reply::Mine(mine) => write_mine(out, mine.get()),
        Reply::Appointed(receipt) => write_appointed(out, *receipt),
        Reply::Ended(number) => write_numbered_ok(out, *number, "ended"),
        Reply::Noted => write_ok(out, "noted"),
        Reply::Recorded => write_ok(out, "recorded"),
        Reply::Refused(refusal) => write_refusal(out, *refusal),
    }
}

/// The JSON text of a reply, with no space between its tokens, which reads back as the reply. It is
/// written in the room of a buffer, in place of what that holds. The error is want of memory alone.
#[inline(always)]
pub fn reply_text_in(room: Vec<u8>, reply: &Reply) -> Result<Vec<u8>, AllocError>
    ensures text { IfOk result (λ text. text.items ≡ reply_bytes reply.now) }
    ensures reads_back { IfOk result (λ text. read text.items ≡ Some (reply_data reply.now)) }
{
    let mut room = room;
    room.clear();
    let mut out = Writer::new(room);
    write_reply(&mut out, reply)?;
    Ok(out.into_inner())
}

/// The text of a reply, and where it is another notice than the last one, that notice with its text.
#[derive(Drop)]
pub struct ReplyText {
    pub text: Vec<u8>,
    pub notice: Option<Boxed<LastNotice>>,
}

/// The text of the replies that most requests of parties have, which is always the same.
fn fixed_text(reply: &Reply) -> Option<&'static [u8]>
    ensures { IfSome result (λ text. text.now ≡ reply_bytes reply.now) }
{
    match reply {
        Reply::Noted => Some(b"{\"ok\":\"noted\"}"),
        Reply::Recorded => Some(b"{\"ok\":\"recorded\"}"),
        _ => None,
    }
}

/// The text of a reply, where it is the last notice again.
fn last_text<'l>(last: &'l Option<Boxed<LastNotice>>, reply: &Reply) -> Option<&'l [u8]>
    ensures { IfSome result (λ text. text.now ≡ reply_bytes reply.now) }
{
    let Reply::Notice(notice) = reply else {
        return None;
    };
    match last {
        Some(last) => last.get().text_of(notice.get()),
        None => None,
    }
}

/// The notice of a reply and its text. There is none where the reply is no notice, or
/// memory is short.
fn as_last(alloc: Global, reply: &Reply, text: &[u8]) -> Option<Boxed<LastNotice>>
    requires { text.now ≡ reply_bytes reply.now }
    ensures { IfSome result (λ last. reply.now ≡ any_reply.Notice last) }
{
    let Reply::Notice(notice) = reply else {
        return None;
    };
    match LastNotice::new(alloc, notice.get(), text) {
        Ok(last) => Boxed::new(alloc, last).ok(),
        Err(_) => None,
    }
}

/// A text in the room of a buffer, in place of what that holds.
#[inline(always)]
fn copied(room: Vec<u8>, text: &[u8]) -> Result<Vec<u8>, AllocError>
    ensures { IfOk result (λ copy. copy.items ≡ text.now) }
{
    let mut copy = room;
    copy.clear();
    copy.extend_from_slice(text)?;
    Ok(copy)
}

/// The end of the text of the reply to an appointment, behind its number.
fn used_text(used: AppointmentUse) -> &'static [u8]
    ensures { result.now
        ≡ codes ",\"ok\":\"appointed\",\"use\":\"" ++ (use_word used ++ codes "\"}") }
{
    match used {
        AppointmentUse::Meeting => b",\"ok\":\"appointed\",\"use\":\"meeting\"}",
        AppointmentUse::LaterPolls => b",\"ok\":\"appointed\",\"use\":\"later polls only\"}",
    }
}

/// The text of the reply to an appointment, in the room of a buffer. Of it only the number is not
/// known before. A caller is not to pay for the room of its digits where it is not called.
#[inline(never)]
fn appointed_text(room: Vec<u8>, receipt: AppointmentReceipt) -> Result<Vec<u8>, AllocError>
    ensures { IfOk result (λ text. text.items ≡ compact_text (appointed_data receipt)) }
{
    let mut digits = Buffer::new();
    let mut text = copied(room, b"{\"number\":")?;
    text.extend_from_slice(digits.format(receipt.number).as_bytes())?;
    text.extend_from_slice(used_text(receipt.used))?;
    Ok(text)
}

/// The text of a reply as `reply_text_in` gives it. That of the last notice is copied, and a notice
/// that differs from it is handed on with its text, to be the last one.
#[inline(always)]
pub fn reply_text_by(
    alloc: Global,
    room: Vec<u8>,
    last: &Option<Boxed<LastNotice>>,
    reply: &Reply,
) -> Result<ReplyText, AllocError>
    ensures text { IfOk result (λ shown. shown.text.items ≡ reply_bytes reply.now) }
    ensures notice { IfOk result (λ shown.
        IfSome shown.notice (λ last. reply.now ≡ any_reply.Notice last)) }
{
    if let Some(text) = fixed_text(reply) {
        let text = copied(room, text)?;
        return Ok(ReplyText { text, notice: None });
    }
    if let Some(text) = last_text(last, reply) {
        let text = copied(room, text)?;
        return Ok(ReplyText { text, notice: None });
    }
    if let Reply::Appointed(receipt) = reply {
        let text = appointed_text(room, *receipt)?;
        return Ok(ReplyText { text, notice: None });
    }
    let text = reply_text_in(room, reply)?;
    let notice = as_last(alloc, reply, &text);
    Ok(ReplyText { text, notice })
}

/// The text of a reply as `reply_text_in` gives it, in a buffer of its own.
pub fn reply_text(alloc: Global, reply: &Reply) -> Result<Vec<u8>, AllocError>
    ensures text { IfOk result (λ text. text.items ≡ reply_bytes reply.now) }
    ensures reads_back { IfOk result (λ text. read text.items ≡ Some (reply_data reply.now)) }
{
    let room = Vec::with_capacity(alloc, room_for(reply))?;
    reply_text_in(room, reply)
}
