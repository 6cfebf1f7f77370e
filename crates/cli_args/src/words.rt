//! What the words of the program ask for.
ghost use Rattle.std.specs.Prelude.{◌≡◌, map, string_bytes};
ghost use Rattle.clap.specs.Matches.{found_of};
ghost use Rattle.clap.specs.Values.{kind_of};
ghost use Rattle.clap.specs.Simple.{subcommand_rows_of};
ghost use Rattle.clap.specs.Walk.{rows_of};
ghost use Rattle.cli_args.specs.Plans.{PlanAgrees, plan_view, texts_of};
ghost use Rattle.cli_args.specs.Words.{IsRefused, asked_by_words, asked_in, texts_in};

use crate::app::desk_matches;
use crate::command_words::CommandWords;
use crate::plan::{Plan, plan_of};
use clap::error::ErrorKind;
use clap::{ArgMatches, Error};
use cli_exit::WordsFault;
use std::alloc::Global;

/// The words that are given to a command, each by its id.
fn words_in<'a>(matches: &ArgMatches<'a>) -> CommandWords<'a>
    ensures { texts_of result ≡ texts_in (rows_of (found_of matches.now)) }
{
    CommandWords {
        file: matches.get_str("FILE"),
        csv: matches.get_str("CSV"),
        txt: matches.get_str("TXT"),
        meeting: matches.get_str("MEETING"),
        record_moment: matches.get_str("RECORD"),
        port: matches.get_str("port"),
        requests: matches.get_str("requests"),
        zone: matches.get_str("zone"),
    }
}

fn plan_in<'a>(alloc: Global, matches: &ArgMatches<'a>) -> Result<Plan<'a>, WordsFault>
    ensures { PlanAgrees plan_view result (asked_in (subcommand_rows_of matches.now)) }
{
    match matches.subcommand() {
        Some((name, under)) => plan_of(alloc, name, &words_in(under)),
        None => Err(WordsFault::Words(String::new(alloc))),
    }
}

/// The fault of words that `clap` does not take.
fn refused(alloc: Global, error: &Error) -> WordsFault
    ensures { IsRefused (kind_of error.now) result }
{
    if error.kind() == ErrorKind::OutOfMemory {
        return WordsFault::Memory;
    }
    match format!(in alloc; "{error}") {
        Ok(text) => WordsFault::Words(text),
        Err(_) => WordsFault::Memory,
    }
}

/// What the words of the program ask for, its own name not among them: a command with its files and
/// its values. The faults are found in their order: the words, the meeting, the record moment, the
/// zone.
pub fn read_words<'a>(alloc: Global, words: &'a [String]) -> Result<Plan<'a>, WordsFault>
    ensures { PlanAgrees plan_view result (asked_by_words (map string_bytes words.entry.now)) }
{
    match desk_matches(alloc, words) {
        Ok(matches) => plan_in(alloc, &matches),
        Err(error) => Err(refused(alloc, &error)),
    }
}
