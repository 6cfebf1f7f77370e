//! What the words of a command ask for.
ghost use Rattle.std.specs.Prelude.{◌≡◌, ok_or, option_map};
ghost use Rattle.wall_clock.specs.Zones.{rule_in, rule_of};
ghost use Rattle.cli_args.specs.Plans.{PlanAgrees, Words, Zone, asked_by_name, days_asked, init_asked, keys_asked, number_between, plan_view, register_asked, results_asked, serve_asked, texts_of, word_in};

use crate::command_words::CommandWords;
use calendar::{Moment, read_moment};
use cli_exit::WordsFault;
use std::alloc::Global;
use vocabulary::{MeetingId, read_meeting};
use wall_clock::OfficeZone;

/// The command that the words name, with its files and its values.
#[derive(Drop)]
pub enum Plan<'a> {
    /// A new desk is made in the file.
    Init {
        file: &'a str,
    },
    /// Keys are loaded from a key file.
    Keys {
        file: &'a str,
        csv: &'a str,
        zone: OfficeZone,
    },
    /// Closed days are loaded from a day file.
    Days {
        file: &'a str,
        txt: &'a str,
        zone: OfficeZone,
    },
    /// A register is loaded for a meeting from a register file.
    Register {
        file: &'a str,
        meeting: MeetingId,
        record_moment: Moment,
        csv: &'a str,
        zone: OfficeZone,
    },
    /// The desk is served on a port of this machine, to at most so many connections.
    Serve {
        file: &'a str,
        port: u16,
        requests: u32,
        zone: OfficeZone,
    },
    /// The results of a meeting are printed.
    Results {
        file: &'a str,
        meeting: MeetingId,
    },
    /// A script is answered, on a desk in memory.
    Replay,
}

/// The zone that a POSIX rule spells. The fault is exactly that the text is no rule.
fn read_zone(rule: &str) -> Result<OfficeZone, WordsFault>
    ensures { PlanAgrees rule_of result (ok_or (rule_in rule.now) Zone) }
{
    match OfficeZone::read(rule) {
        Ok(zone) => Ok(zone),
        Err(_) => Err(WordsFault::Zone),
    }
}

/// The word that is given. `clap` gives no words without each that is wanted.
fn word<'a>(alloc: Global, given: Option<&'a str>) -> Result<&'a str, WordsFault>
    ensures { PlanAgrees (λ s. s.now) result (word_in (option_map (λ s. s.now) given.entry)) }
{
    match given {
        Some(word) => Ok(word),
        None => Err(WordsFault::Words(String::new(alloc))),
    }
}

/// The port that a word spells: 1 to 65,535.
fn port_of(word: &str) -> Option<u16>
    ensures { result ≡ number_between 1 65535 word.now }
{
    match word.parse::<u16>() {
        Ok(port) => { if port == 0 { None } else { Some(port) } }
        Err(_) => None,
    }
}

/// The number of requests that a word spells: 1 to 1,000,000,000.
fn requests_of(word: &str) -> Option<u32>
    ensures { result ≡ number_between 1 1000000000 word.now }
{
    match word.parse::<u32>() {
        Ok(requests) => {
            if requests == 0 {
                None
            } else if requests > 1_000_000_000 {
                None
            } else {
                Some(requests)
            }
        }
        Err(_) => None,
    }
}

/// The number that was read. `clap` gives no matches with a word that spells none within the bounds.
fn taken<T>(alloc: Global, read: Option<T>) -> Result<T, WordsFault>
    ensures { PlanAgrees (λ number. number) result (ok_or read Words) }
{
    match read {
        Some(number) => Ok(number),
        None => Err(WordsFault::Words(String::new(alloc))),
    }
}

#[tactic(auto, unfolding(crate::specs::Plans::init_asked))]
fn init_in<'a>(alloc: Global, words: &CommandWords<'a>) -> Result<Plan<'a>, WordsFault>
    ensures { PlanAgrees plan_view result (init_asked (texts_of words.now)) }
{
    let file = word(alloc, words.file)?;
    Ok(Plan::Init { file })
}

#[tactic(auto, unfolding(crate::specs::Plans::keys_asked))]
fn keys_in<'a>(alloc: Global, words: &CommandWords<'a>) -> Result<Plan<'a>, WordsFault>
    ensures { PlanAgrees plan_view result (keys_asked (texts_of words.now)) }
{
    let file = word(alloc, words.file)?;
    let csv = word(alloc, words.csv)?;
    let rule = word(alloc, words.zone)?;
    let zone = read_zone(rule)?;
    Ok(Plan::Keys { file, csv, zone })
}

#[tactic(auto, unfolding(crate::specs::Plans::days_asked))]
fn days_in<'a>(alloc: Global, words: &CommandWords<'a>) -> Result<Plan<'a>, WordsFault>
    ensures { PlanAgrees plan_view result (days_asked (texts_of words.now)) }
{
    let file = word(alloc, words.file)?;
    let txt = word(alloc, words.txt)?;
    let rule = word(alloc, words.zone)?;
    let zone = read_zone(rule)?;
    Ok(Plan::Days { file, txt, zone })
}

#[tactic(auto, unfolding(crate::specs::Plans::register_asked))]
fn register_in<'a>(alloc: Global, words: &CommandWords<'a>) -> Result<Plan<'a>, WordsFault>
    ensures { PlanAgrees plan_view result (register_asked (texts_of words.now)) }
{
    let file = word(alloc, words.file)?;
    let meeting_word = word(alloc, words.meeting)?;
    let record_word = word(alloc, words.record_moment)?;
    let csv = word(alloc, words.csv)?;
    let rule = word(alloc, words.zone)?;
    let meeting = read_meeting(meeting_word.as_bytes()).ok_or(WordsFault::Meeting)?;
    let record_moment = read_moment(record_word.as_bytes()).ok_or(WordsFault::Record)?;
    let zone = read_zone(rule)?;
    Ok(Plan::Register {
        file,
        meeting,
        record_moment,
        csv,
        zone,
    })
}

#[tactic(auto, unfolding(crate::specs::Plans::serve_asked))]
fn serve_in<'a>(alloc: Global, words: &CommandWords<'a>) -> Result<Plan<'a>, WordsFault>
    ensures { PlanAgrees plan_view result (serve_asked (texts_of words.now)) }
{
    let file = word(alloc, words.file)?;
    let port_word = word(alloc, words.port)?;
    let requests_word = word(alloc, words.requests)?;
    let rule = word(alloc, words.zone)?;
    let port = taken(alloc, port_of(port_word))?;
    let requests = taken(alloc, requests_of(requests_word))?;
    let zone = read_zone(rule)?;
    Ok(Plan::Serve {
        file,
        port,
        requests,
        zone,
    })
}

#[tactic(auto, unfolding(crate::specs::Plans::results_asked))]
fn results_in<'a>(alloc: Global, words: &CommandWords<'a>) -> Result<Plan<'a>, WordsFault>
    ensures { PlanAgrees plan_view result (results_asked (texts_of words.now)) }
{
    let file = word(alloc, words.file)?;
    let meeting = word(alloc, words.meeting)?;
    let meeting = read_meeting(meeting.as_bytes()).ok_or(WordsFault::Meeting)?;
    Ok(Plan::Results { file, meeting })
}

/// What a command of that name asks for by its words. The faults are found in their order: the words,
/// the meeting, the record moment, the zone.
pub fn plan_of<'a>(
    alloc: Global,
    name: &str,
    words: &CommandWords<'a>,
) -> Result<Plan<'a>, WordsFault>
    ensures { PlanAgrees plan_view result (asked_by_name name.now (texts_of words.now)) }
{
    match name {
        "init" => init_in(alloc, words),
        "keys" => keys_in(alloc, words),
        "days" => days_in(alloc, words),
        "register" => register_in(alloc, words),
        "serve" => serve_in(alloc, words),
        "results" => results_in(alloc, words),
        "replay" => Ok(Plan::Replay),
        _ => Err(WordsFault::Words(String::new(alloc))),
    }
}
