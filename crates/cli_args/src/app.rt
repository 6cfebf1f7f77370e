//! The commands of the program, and the words that each takes.
ghost use Rattle.std.specs.Prelude.{◌≡◌, IfOk, IsOkAnd, false, map, string_bytes};
ghost use Rattle.clap.specs.Faults.{fault_of};
ghost use Rattle.clap.specs.Kinds.{FailsBy};
ghost use Rattle.clap.specs.Simple.{app_of, subcommand_of, subcommand_rows_of, with_rule, with_subcommand, new_app};
ghost use Rattle.clap.specs.Walk.{rule_of};
ghost use Rattle.cli_args.specs.App as spec;

use crate::help;
use clap::builder::ValueParser;
use clap::{Arg, ArgMatches, Command, Error};
use std::alloc::{AllocError, Global};

fn named<'a>(alloc: Global, name: &'a str, about: &'a str) -> Command<'a>
    ensures { spec.IsCommand result (new_app name.entry.now) }
{
    Command::new(alloc, name).about(about)
}

fn wanted<'a>(alloc: Global, id: &'a str, help: &'a str) -> Arg<'a>
    ensures rule { rule_of result ≡ spec.required_word id.entry.now }
    ensures local { result.global ≡ false }
{
    Arg::new(alloc, id).required(true).help(help)
}

fn zone<'a>(alloc: Global) -> Arg<'a>
    ensures rule { rule_of result ≡ spec.zone }
    ensures local { result.global ≡ false }
{
    Arg::new(alloc, "zone")
        .long("zone")
        .value_name("RULE")
        .default_value("GMT0BST,M3.5.0/1,M10.5.0")
        .help(help::ZONE)
}

/// The argument, whose value is a number within the bounds.
fn within<'a>(arg: Arg<'a>, least: u64, most: u64) -> Arg<'a>
    ensures { result ≡ record arg.entry { value_parser = Some (ValueParser.Unsigned least most) } }
{
    arg.value_parser(ValueParser::unsigned(least, most))
}

fn port<'a>(alloc: Global) -> Arg<'a>
    ensures rule { rule_of result ≡ spec.port }
    ensures local { result.global ≡ false }
{
    let port = Arg::new(alloc, "port")
        .long("port")
        .value_name("N")
        .required(true)
        .help(help::PORT);
    within(port, 1, 65_535)
}

fn requests<'a>(alloc: Global) -> Arg<'a>
    ensures rule { rule_of result ≡ spec.requests }
    ensures local { result.global ≡ false }
{
    let requests = Arg::new(alloc, "requests")
        .long("requests")
        .value_name("N")
        .default_value("1000000")
        .help(help::REQUESTS);
    within(requests, 1, 1_000_000_000)
}

/// The command, and one argument more that it takes.
fn with_arg<'a>(command: Command<'a>, arg: Arg<'a>) -> Result<Command<'a>, AllocError>
    ensures { IfOk result (λ c. spec.TakesArg command.entry arg.entry c) }
{
    command.arg(arg)
}

/// The same, if the command could be made.
fn and_arg<'a>(
    command: Result<Command<'a>, AllocError>,
    arg: Arg<'a>,
) -> Result<Command<'a>, AllocError>
    ensures { IfOk result
        (λ c. IsOkAnd command.entry (λ made. spec.TakesArg made arg.entry c)) }
{
    match command {
        Ok(made) => with_arg(made, arg),
        Err(error) => Err(error),
    }
}

/// A command that takes the file of a desk.
fn on_file<'a>(alloc: Global, name: &'a str, about: &'a str) -> Result<Command<'a>, AllocError>
    ensures { IfOk result (λ c. spec.IsCommand c (spec.on_file name.entry.now)) }
{
    let named = named(alloc, name, about);
    with_arg(named, wanted(alloc, "FILE", help::FILE))
}

/// A command that takes the file of a desk and a meeting.
fn on_meeting<'a>(alloc: Global, name: &'a str, about: &'a str) -> Result<Command<'a>, AllocError>
    ensures { IfOk result (λ c. spec.IsCommand c (spec.on_meeting name.entry.now)) }
{
    let on_file = on_file(alloc, name, about);
    and_arg(on_file, wanted(alloc, "MEETING", help::MEETING))
}

fn keys<'a>(alloc: Global) -> Result<Command<'a>, AllocError>
    ensures { IfOk result (λ c. spec.IsCommand c spec.keys_app) }
{
    let keys = on_file(alloc, "keys", help::KEYS);
    let with_csv = and_arg(keys, wanted(alloc, "CSV", help::KEY_FILE));
    and_arg(with_csv, zone(alloc))
}

fn days<'a>(alloc: Global) -> Result<Command<'a>, AllocError>
    ensures { IfOk result (λ c. spec.IsCommand c spec.days_app) }
{
    let days = on_file(alloc, "days", help::DAYS);
    let with_txt = and_arg(days, wanted(alloc, "TXT", help::DAY_FILE));
    and_arg(with_txt, zone(alloc))
}

fn register<'a>(alloc: Global) -> Result<Command<'a>, AllocError>
    ensures { IfOk result (λ c. spec.IsCommand c spec.register_app) }
{
    let register = on_meeting(alloc, "register", help::REGISTER);
    let with_record = and_arg(register, wanted(alloc, "RECORD", help::RECORD));
    let with_csv = and_arg(with_record, wanted(alloc, "CSV", help::REGISTER_FILE));
    and_arg(with_csv, zone(alloc))
}

fn serve<'a>(alloc: Global) -> Result<Command<'a>, AllocError>
    ensures { IfOk result (λ c. spec.IsCommand c spec.serve_app) }
{
    let serve = on_file(alloc, "serve", help::SERVE);
    let with_port = and_arg(serve, port(alloc));
    let with_requests = and_arg(with_port, requests(alloc));
    and_arg(with_requests, zone(alloc))
}

/// The command, and one command more under it.
fn with_command<'a>(command: Command<'a>, under: Command<'a>) -> Result<Command<'a>, AllocError>
    ensures { IfOk result (λ c. spec.TakesUnder command.entry under.entry c) }
{
    command.subcommand(under)
}

/// The same, if the command under it could be made.
fn with_made<'a>(
    command: Command<'a>,
    under: Result<Command<'a>, AllocError>,
) -> Result<Command<'a>, AllocError>
    ensures { IfOk result
        (λ c. IsOkAnd under.entry (λ made. spec.TakesUnder command.entry made c)) }
{
    match under {
        Ok(made) => with_command(command, made),
        Err(error) => Err(error),
    }
}

/// The same, if both could be made.
fn and_made<'a>(
    command: Result<Command<'a>, AllocError>,
    under: Result<Command<'a>, AllocError>,
) -> Result<Command<'a>, AllocError>
    ensures { IfOk result
        (λ c. IsOkAnd command.entry
        (λ above. IsOkAnd under.entry (λ made. spec.TakesUnder above made c))) }
{
    match command {
        Ok(above) => with_made(above, under),
        Err(error) => Err(error),
    }
}

/// The program's name is given, since it is not among the words: else the help of a command lacks it.
fn top<'a>(alloc: Global) -> Result<Command<'a>, AllocError>
    ensures { IfOk result (λ c. spec.IsCommand c spec.top) }
{
    Command::new(alloc, "desk")
        .about(help::DESK)
        .subcommand_required(true)
        .arg_required_else_help(true)
        .no_binary_name(true)
        .bin_name("desk")
}

/// The program, and the commands that make a desk and load files into it.
fn with_loads<'a>(alloc: Global) -> Result<Command<'a>, AllocError>
    ensures { IfOk result (λ c. spec.IsCommand c spec.with_loads) }
{
    let first = and_made(top(alloc), on_file(alloc, "init", help::INIT));
    let second = and_made(first, keys(alloc));
    let third = and_made(second, days(alloc));
    and_made(third, register(alloc))
}

fn desk<'a>(alloc: Global) -> Result<Command<'a>, AllocError>
    ensures { IfOk result (λ c. spec.IsCommand c spec.desk_app) }
{
    let fifth = and_made(with_loads(alloc), serve(alloc));
    let sixth = and_made(fifth, on_meeting(alloc, "results", help::RESULTS));
    and_made(sixth, Ok(named(alloc, "replay", help::REPLAY)))
}

/// What `clap` makes of the words, the program's own name not among them.
pub(crate) fn desk_matches<'a>(alloc: Global, words: &'a [String]) -> Result<ArgMatches<'a>, Error>
    ensures named { IfOk result
        (λ m. subcommand_rows_of m
        ≡ subcommand_of spec.desk_app (map string_bytes words.entry.now)) }
    ensures exact { FailsBy (fault_of spec.desk_app (map string_bytes words.entry.now)) result }
{
    let command = desk(alloc)?;
    command.try_get_matches_from(words)
}
