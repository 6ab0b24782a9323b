//! The command line as `clap` gets it, and the command that its matches give.

ghost use Rattle.std.specs.Prelude.{◌≡◌, IfOk, false, map, option_and_then, option_map, string_bytes};
ghost use Rattle.clap.specs.Words.{app_of, first_of, found_of, rows_of, rule_of, subcommand_rows_of};
ghost use Rattle.clap.specs.declared.builder.Command.TheViews.{out-Command as fields_of};
ghost use Rattle.command_line.specs.Command.{meaning};
ghost use Rattle.command_line.specs.Clap.{command_of, elmc_app, free_option, make_app, make_of, needed_option};
ghost use Rattle.command_line.specs.Clap.{plain_app, positional, read, run_app, run_of};

use crate::numbers::number_or_other;
use crate::words::Command;
use clap::error::ErrorKind;
use clap::{Arg, ArgMatches, Command as Parser};
use std::alloc::{AllocError, Global};

/// The most workers that may be asked for.
const MOST_JOBS: u32 = 64;

/// The fuel if it is not given.
const FUEL: u32 = 1_000_000;

/// The command that `clap` finds in the words. The first word is the name of the program.
pub fn command_by_clap<'a>(
    alloc: Global,
    words: &'a [String],
) -> Result<Option<Command<'a>>, AllocError>
    ensures { IfOk result (λ r. option_map meaning r ≡ command_of (map string_bytes words.now)) }
{
    let elmc = elmc(alloc)?;
    match elmc.try_get_matches_from(words) {
        Ok(matches) => Ok(command_in(&matches)),
        Err(error) => {
            if error.kind() == ErrorKind::OutOfMemory {
                Err(AllocError)
            } else {
                Ok(None)
            }
        }
    }
}

/// The parser of the program's words.
fn elmc<'a>(alloc: Global) -> Result<Parser<'a>, AllocError>
    ensures { IfOk result (λ c. app_of c ≡ elmc_app) }
{
    plain(alloc, "elmc")
        .subcommand(make_parser(alloc)?)?
        .subcommand(run_parser(alloc)?)
}

/// A parser with no help of its own.
fn plain<'a>(alloc: Global, name: &'a str) -> Parser<'a>
    ensures app { app_of result ≡ plain_app name.entry.now }
    ensures local { (fields_of result).has_globals ≡ false }
{
    Parser::new(alloc, name)
        .disable_help_flag(true)
        .disable_help_subcommand(true)
}

/// The parser of the words after `make`.
fn make_parser<'a>(alloc: Global) -> Result<Parser<'a>, AllocError>
    ensures { IfOk result (λ c. (app_of c ≡ make_app) × ((fields_of c).has_globals ≡ false)) }
{
    Parser::new(alloc, "make")
        .arg(place(alloc, "entry"))?
        .arg(needed(alloc, "output"))?
        .arg(free(alloc, "jobs"))
}

/// The parser of the words after `run`.
fn run_parser<'a>(alloc: Global) -> Result<Parser<'a>, AllocError>
    ensures { IfOk result (λ c. (app_of c ≡ run_app) × ((fields_of c).has_globals ≡ false)) }
{
    Parser::new(alloc, "run")
        .arg(place(alloc, "program"))?
        .arg(place(alloc, "inputs"))?
        .arg(free(alloc, "fuel"))
}

/// An argument that is given by its position.
fn place<'a>(alloc: Global, id: &'a str) -> Arg<'a>
    ensures rule { rule_of result ≡ positional id.entry.now }
    ensures local { result.global ≡ false }
{
    Arg::new(alloc, id).required(true)
}

/// An option that has to be given.
fn needed<'a>(alloc: Global, name: &'a str) -> Arg<'a>
    ensures rule { rule_of result ≡ needed_option name.entry.now }
    ensures local { result.global ≡ false }
{
    Arg::new(alloc, name).long(name).required(true)
}

/// An option that may be left out.
fn free<'a>(alloc: Global, name: &'a str) -> Arg<'a>
    ensures rule { rule_of result ≡ free_option name.entry.now }
    ensures local { result.global ≡ false }
{
    Arg::new(alloc, name).long(name)
}

/// The command of the subcommand that was met.
fn command_in<'a>(matches: &ArgMatches<'a>) -> Option<Command<'a>>
    ensures { option_map meaning result ≡ option_and_then read (subcommand_rows_of matches.now) }
{
    let (name, inner) = matches.subcommand()?;
    if name == "make" {
        make_in(inner)
    } else if name == "run" {
        run_in(inner)
    } else {
        None
    }
}

/// `make` with the texts that are given.
fn make_in<'a>(matches: &ArgMatches<'a>) -> Option<Command<'a>>
    ensures { option_map meaning result ≡ make_of (rows_of (found_of matches.now)) }
{
    let entry = text_of(matches, "entry")?;
    let output = text_of(matches, "output")?;
    let jobs = number_or_other(text_of(matches, "jobs"), 1, MOST_JOBS, 1)?;
    Some(Command::Make {
        entry,
        output,
        jobs,
    })
}

/// `run` with the texts that are given.
fn run_in<'a>(matches: &ArgMatches<'a>) -> Option<Command<'a>>
    ensures { option_map meaning result ≡ run_of (rows_of (found_of matches.now)) }
{
    let program = text_of(matches, "program")?;
    let inputs = text_of(matches, "inputs")?;
    let fuel = number_or_other(text_of(matches, "fuel"), 1, u32::MAX, FUEL)?;
    Some(Command::Run {
        program,
        inputs,
        fuel,
    })
}

/// The text that is given for an argument.
fn text_of<'a>(matches: &ArgMatches<'a>, id: &str) -> Option<&'a str>
    ensures { option_map (λ s. s.now) result ≡ first_of id.now (rows_of (found_of matches.now)) }
{
    matches.get_str(id)
}
