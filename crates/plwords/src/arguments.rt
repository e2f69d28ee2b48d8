//! The one command of `clap` that reads the words.
ghost use Rattle.std.specs.Prelude.{◌≡◌, [], false, codes, map, option_map, string_bytes, IfOk, IfErr};
ghost use Rattle.clap.specs.Words.{app_of, found_of, rows_of, rule_of, fault_of, matches_of};
ghost use Rattle.plwords.specs.Arguments.{steps_rule, goal_rule, prolog_app, bare_app, IsTaken, command_in};
ghost use Rattle.plwords.specs.Commands.{shown};

use crate::form::{WordsError, form_of};
use crate::words::Command;
use clap::error::ErrorKind;
use clap::{Arg, ArgMatches};
use std::alloc::{AllocError, Global};

fn steps<'a>(alloc: Global) -> Arg<'a>
    ensures rule { rule_of result ≡ steps_rule }
    ensures local { result.global ≡ false }
{
    Arg::new(alloc, "steps").long("steps")
}

fn goal<'a>(alloc: Global) -> Arg<'a>
    ensures rule { rule_of result ≡ goal_rule }
    ensures local { result.global ≡ false }
{
    Arg::new(alloc, "goal").long("goal")
}

fn bare<'a>(alloc: Global) -> clap::Command<'a>
    ensures { app_of result ≡ bare_app }
{
    clap::Command::new(alloc, "prolog")
        .disable_help_flag(true)
        .disable_version_flag(true)
}

fn command<'a>(alloc: Global) -> Result<clap::Command<'a>, AllocError>
    ensures { IfOk result (λ c. app_of c ≡ prolog_app) }
{
    let command = bare(alloc)
        .arg(steps(alloc))?
        .arg(goal(alloc))?
        .arg(Arg::new(alloc, "form"))?
        .arg(Arg::new(alloc, "program"))?;
    Ok(command)
}

/// What the command makes of the words, if it takes them.
fn matches<'a>(alloc: Global, words: &'a [String]) -> Result<ArgMatches<'a>, WordsError>
    ensures taken { IfOk result (λ m. IsTaken (map string_bytes words.entry.now)) }
    ensures rows { IfOk result (λ m. rows_of (found_of m) ≡ matches_of prolog_app (map string_bytes words.entry.now)) }
    ensures refused { IfErr result (λ e. e ≡ WordsError.Usage → IsTaken (map string_bytes words.entry.now) → ⊥) }
{
    let command = match command(alloc) {
        Ok(command) => command,
        Err(_) => return Err(WordsError::NoMemory),
    };
    match command.try_get_matches_from(words) {
        Ok(matches) => Ok(matches),
        Err(error) => {
            if error.kind() == ErrorKind::OutOfMemory {
                return Err(WordsError::NoMemory);
            }
            Err(WordsError::Usage)
        }
    }
}

/// The command that the arguments are, if they are of one of the forms.
fn command_in<'a>(matches: &ArgMatches<'a>) -> Option<Command<'a>>
    ensures { option_map shown result ≡ command_in (rows_of (found_of matches.now)) }
{
    let name = matches.get_str("form");
    let steps = matches.get_str("steps");
    let goal = matches.get_str("goal");
    let form = form_of(name, steps, goal)?;
    let path = matches.get_str("program")?;
    Some(Command { form, path })
}

/// The command that the words are, if they are of one of the forms.
pub(crate) fn read<'a>(alloc: Global, words: &'a [String]) -> Result<Command<'a>, WordsError>
    ensures taken { IfOk result (λ c. IsTaken (map string_bytes words.entry.now)) }
    ensures command { IfOk result (λ c. command_in (matches_of prolog_app (map string_bytes words.entry.now)) ≡ Some (shown c)) }
    ensures refused { IfErr result (λ e. e ≡ WordsError.Usage → IsTaken (map string_bytes words.entry.now) →
        command_in (matches_of prolog_app (map string_bytes words.entry.now)) ≡ None) }
{
    let matches = matches(alloc, words)?;
    command_in(&matches).ok_or(WordsError::Usage)
}
