//! The reader of heads.
ghost use Rattle.std.specs.Prelude.{◌≡◌, ℕ, ◌+◌, ◌<◌, ◌≤◌, List, [], ◌++◌, length, MatchOption, IsOk, IfOk, OnOk, OnErr, option_copied};
ghost use Rattle.std.specs.Io.KnownBytes.{IsAtEnd};
ghost use Rattle.httparse.specs.Grammar.{HasNoRequest, MayBecomeRequest};
ghost use Rattle.httparse.specs.Spans.{IsRequestWithin, RequestOverflows};
ghost use Rattle.byte_io.specs.Counts.{one_more};
ghost use Rattle.http_heads.specs.Fields.{only_value};
ghost use Rattle.http_heads.specs.Heads.{Finds, FindsKnown, FindsNoHead, IsOpen, ReceivesBytes, held_at};
ghost use Rattle.http_heads.specs.Length.{body_length};

use crate::fields;
use crate::front::{Front, LONGEST_HEAD, MOST_FIELDS};
use crate::length::{self, BodyLength};
use byte_io::{DeviceError, Source};
use httparse::spans::{EMPTY_HEADER_SPAN, HeaderSpan, RequestSpans, Span, parse_request};
use httparse::{Error, Status};
use std::marker::Model;

/// A head of 8,192 bytes has fewer fields than this, since each has three bytes or more.
const MOST_SPANS: usize = 2_731;

const NO_SPAN: Span = Span { start: 0, end: 0 };

/// The spans where there is no head.
const NO_HEAD: RequestSpans = RequestSpans {
    method: NO_SPAN,
    path: NO_SPAN,
    version: 0,
    headers: 0,
    len: 0,
};

/// Reads the head of a request from the front of an input, and shows what it asks.
#[derive(Drop)]
pub struct HeadReader {
    buffer: [u8; LONGEST_HEAD],
    filled: usize,
    fields: [HeaderSpan; MOST_FIELDS],
    head: RequestSpans,
}

impl Model for HeadReader {
    ghost use Rattle.std.specs.Prelude.{take};
    ghost use Rattle.http_heads.specs.Heads.{HeadBuffer, held_at};
    ghost use Rattle.http_heads.specs.BufferBounds.{IsInside};

    ghost Value = { HeadBuffer };

    ghost view = { λ r. held_at (take r.filled r.buffer) r.fields r.head };

    ghost invariant = { λ r. IsInside r.buffer r.filled r.fields r.head };
}

impl HeadReader {
    /// A reader that has read nothing. It holds its one buffer in itself, and takes no memory.
    pub fn new() -> Self
        ensures { result.bytes ≡ [] }
    {
        HeadReader {
            buffer: [0; LONGEST_HEAD],
            filled: 0,
            fields: [EMPTY_HEADER_SPAN; MOST_FIELDS],
            head: NO_HEAD,
        }
    }

    /// The method of a whole head.
    pub fn method(&self) -> &[u8]
        ensures { result.now ≡ self.now.asked.method }
    {
        self.head.method.of(&self.buffer[..self.filled])
    }

    /// The target of a whole head.
    pub fn target(&self) -> &[u8]
        ensures { result.now ≡ self.now.asked.target }
    {
        self.head.path.of(&self.buffer[..self.filled])
    }

    /// The value of the one field of this name in a whole head, without spaces and tabs at its
    /// ends. ASCII case does not tell names apart.
    ///
    /// `None` where there is no such field or more than one.
    pub fn value_of(&self, name: &[u8]) -> Option<&[u8]>
        ensures { option_copied result ≡ only_value name.now self.now.asked.fields }
    {
        let fields = &self.fields[..self.head.headers];
        fields::only_value(&self.buffer[..self.filled], fields, name)
    }

    /// The length of the body that a whole head announces.
    pub fn body_length(&self) -> BodyLength
        ensures { result ≡ body_length self.now.asked.fields }
    {
        let fields = &self.fields[..self.head.headers];
        length::body_length(&self.buffer[..self.filled], fields)
    }

    /// The bytes that were read behind a whole head.
    pub fn rest(&self) -> &[u8]
        ensures { result.now ≡ self.now.rest }
    {
        &self.buffer[self.head.len..self.filled]
    }

    /// Reads on until the bytes so far hold a whole head, or can never, or are 8,192, or the source
    /// has ended.
    ///
    /// The source is not asked for a byte more where the bytes so far settle the answer. A failure
    /// is one failed call of the source; the bytes that came before it stay, and a later call goes
    /// on behind them.
    pub fn read<S: Source>(&mut self, source: &mut S) -> Result<Front, DeviceError>
        // What stands at the front of the input, and what of it the reader holds and the source
        // has left.
        ensures front { IfOk result (λ front. FindsKnown front self.old.bytes
            (S.remaining source.old) (S.remaining source.new) self.new) }

        // The same of the bytes that were read, where those to come are not known.
        ensures read { IfOk result (λ front. Finds front self.new.bytes [] self.new) }

        // What came of the source, before a failure too.
        ensures comes { ReceivesBytes self.old.bytes self.new.bytes
            (S.remaining source.old) (S.remaining source.new)
            (S.passed source.old) (S.passed source.new) }
        ensures bound { length self.new.bytes ≤ LONGEST_HEAD }
        ensures settled { (IsOpen self.old.bytes → ⊥) → IsOk result × (source.new ≡ source.old) }
        ensures works { OnOk result (S.failures source.new ≡ S.failures source.old) }
        ensures failed { OnErr result (S.failures source.new ≡ one_more (S.failures source.old)) }
    {
        match self.judge() {
            Some(front) => Ok(front),
            None => self.read_on(source),
        }
    }

    /// What the bytes so far are, whatever follows, or none where more are to come.
    fn judge(&mut self) -> Option<Front>
        ensures found { MatchOption result (IsOpen self.new.bytes)
            (λ front. (left : List ℕ) → Finds front (self.new.bytes ++ left) left self.new) }
        ensures bytes { self.new.bytes ≡ self.old.bytes }
        ensures bound { length self.new.bytes ≤ LONGEST_HEAD }
    {
        let (front, head) = judge(&self.buffer[..self.filled], &mut self.fields);
        self.head = head;
        front
    }

    /// Reads once behind the bytes so far, which settle nothing, and returns how many came. 0 says
    /// that the source has ended.
    fn fill<S: Source>(&mut self, source: &mut S) -> Result<usize, DeviceError>
        requires { IsOpen self.old.bytes }
        ensures comes { ReceivesBytes self.old.bytes self.new.bytes
            (S.remaining source.old) (S.remaining source.new)
            (S.passed source.old) (S.passed source.new) }
        ensures count { IfOk result (λ n. length self.new.bytes ≡ length self.old.bytes + n) }
        ensures bound { length self.new.bytes ≤ LONGEST_HEAD }
        ensures end { IfOk result (λ n. n ≡ 0 → IsAtEnd (S.remaining source.new)) }
        ensures works { OnOk result (S.failures source.new ≡ S.failures source.old) }
        ensures failed { OnErr result (S.failures source.new ≡ one_more (S.failures source.old)) }
    {
        let count = source.read(&mut self.buffer[self.filled..])?;
        self.filled += count;
        Ok(count)
    }

    /// Reads on behind bytes that hold no head and can become one.
    fn read_on<S: Source>(&mut self, source: &mut S) -> Result<Front, DeviceError>
        requires { IsOpen self.old.bytes }
        ensures front { IfOk result (λ front. FindsKnown front self.old.bytes
            (S.remaining source.old) (S.remaining source.new) self.new) }
        ensures read { IfOk result (λ front. Finds front self.new.bytes [] self.new) }
        ensures comes { ReceivesBytes self.old.bytes self.new.bytes
            (S.remaining source.old) (S.remaining source.new)
            (S.passed source.old) (S.passed source.new) }
        ensures bound { length self.new.bytes ≤ LONGEST_HEAD }
        ensures works { OnOk result (S.failures source.new ≡ S.failures source.old) }
        ensures failed { OnErr result (S.failures source.new ≡ one_more (S.failures source.old)) }
    {
        while self.fill(source)? > 0 {
            if let Some(front) = self.judge() {
                return Ok(front);
            }
        }
        Ok(Front::Unreadable)
    }
}

/// What bytes are, whatever follows, that hold no head and can become one; none where more are to
/// come.
fn unended(bytes: &[u8]) -> Option<Front>
    requires short { length bytes.now ≤ LONGEST_HEAD }
    requires none { HasNoRequest bytes.now }
    requires unended { MayBecomeRequest bytes.now }
    ensures { MatchOption result (IsOpen bytes.now) (FindsNoHead bytes.now) }
{
    if bytes.len() < LONGEST_HEAD {
        None
    } else {
        Some(Front::TooLarge)
    }
}

/// What bytes are, whatever follows, whose head has too many fields if there is one; none where
/// more are to come. The room for the spans of all fields is large, and no other head is to pay for
/// it.
#[inline(never)]
fn judge_crowded(bytes: &[u8]) -> Option<Front>
    requires short { length bytes.now ≤ LONGEST_HEAD }
    requires many { RequestOverflows MOST_FIELDS bytes.now }
    ensures { MatchOption result (IsOpen bytes.now) (FindsNoHead bytes.now) }
{
    let mut fields = [EMPTY_HEADER_SPAN; MOST_SPANS];
    match parse_request(bytes, &mut fields) {
        Ok(Status::Complete(_)) => Some(Front::TooLarge),
        Ok(Status::Partial) => unended(bytes),
        Err(_) => Some(Front::Unreadable),
    }
}

/// What the bytes are, whatever follows, and the spans of a whole head; none where more are to
/// come.
fn judge(bytes: &[u8], fields: &mut [HeaderSpan]) -> (Option<Front>, RequestSpans)
    requires short { length bytes.now ≤ LONGEST_HEAD }
    requires room { length fields.old ≡ MOST_FIELDS }
    ensures found { MatchOption result.0 (IsOpen bytes.now) (λ front. (left : List ℕ)
        → Finds front (bytes.now ++ left) left (held_at bytes.now fields.new result.1)) }
    ensures within { IsRequestWithin bytes.now fields.new result.1 }
{
    match parse_request(bytes, fields) {
        Ok(Status::Complete(head)) => (Some(Front::Whole), head),
        Ok(Status::Partial) => (unended(bytes), NO_HEAD),
        Err(error) if error == Error::TooManyHeaders => (judge_crowded(bytes), NO_HEAD),
        Err(_) => (Some(Front::Unreadable), NO_HEAD),
    }
}
