//! Words read.

ghost use Rattle.std.specs.Prelude.{◌≡◌, ◌⊎◌, ◌∷◌, Ok, Err, Some, IfOk, map, option_map, string_bytes, codes};
ghost use Rattle.value_types.specs.Units.{utf16_of};
ghost use Rattle.clap.specs.Words.{found_of, rows_of, subcommand_rows_of, kind_of};
ghost use Rattle.clap.specs.Walk.{texts};
ghost use Rattle.program_words.specs.declared.command.ProgramCommand.{ProgramCommand};
ghost use Rattle.program_words.specs.Spelled.{Spells};
ghost use Rattle.program_words.specs.Asked.{asked_of, is_on, pipe_in, listen_in, load_in, number_or, text_or, user_in, password_in, rounds_in, values_of, Reads, Finds, Answers, AnswersError, IsInRange};

use crate::command::ProgramCommand;
use crate::fault::WordsFault;
use crate::number::number_in;
use crate::options::{MOST_PORT, MOST_ROUNDS, MOST_TRANSFERS, MOST_WORKERS, program};
use clap::error::ErrorKind;
use clap::{ArgMatches, Error};
use std::alloc::{AllocError, Global};
use value_types::{Memory, Units, units_of_str};

/// The name of the program.
const NAME: &str = "tsqld";

/// The user who may log in, where the words name none.
const DEFAULT_USER: &str = "sa";

/// That user's password.
const DEFAULT_PASSWORD: &str = "A";

/// How many workers there are, where the words don't say.
const DEFAULT_WORKERS: u32 = 4;

/// What the words behind the program's name ask for.
pub fn read_words(alloc: Global, words: &[String]) -> Result<ProgramCommand, WordsFault>
    ensures answers { Answers (map string_bytes words.now) result }
    ensures spelled { (command : ProgramCommand) → Spells (map string_bytes words.now) command
        → (result ≡ Ok command) ⊎ (result ≡ Err WordsFault.Memory) }
    ensures range { IfOk result IsInRange }
{
    let words = with_name(alloc, words)?;
    match program(alloc)?.try_get_matches_from(words.as_slice()) {
        Ok(matches) => command_of(alloc, &matches),
        Err(error) => answer_to(alloc, &error),
    }
}

/// The words with the program's name before them.
fn with_name<'a>(alloc: Global, words: &'a [String]) -> Result<Vec<&'a str>, AllocError>
    ensures { IfOk result (λ all. texts all.items ≡ codes "tsqld" ∷ map string_bytes words.now) }
{
    let mut all = Vec::new(alloc);
    all.push(NAME)?;
    for word in words {
        all.push(word.as_str())?;
    }
    Ok(all)
}

/// The command of these matches, where the numbers among them are in form.
fn command_of(alloc: Global, matches: &ArgMatches<'_>) -> Result<ProgramCommand, WordsFault>
    ensures { Reads (asked_of (subcommand_rows_of matches.now)) result }
{
    match matches.subcommand() {
        Some((name, options)) if name == "pipe" => pipe(alloc, options),
        Some((name, options)) if name == "listen" => listen(alloc, options),
        Some((name, _)) if name == "steps" => Ok(ProgramCommand::Steps),
        Some((name, options)) if name == "load" => load(options),
        _ => Err(WordsFault::Refused),
    }
}

/// What `pipe` asks for by these matches.
fn pipe(alloc: Global, options: &ArgMatches<'_>) -> Result<ProgramCommand, WordsFault>
    ensures { Reads (Some (pipe_in (values_of (rows_of (found_of options.now))))) result }
{
    Ok(ProgramCommand::Pipe {
        user: user(alloc, options)?,
        password: password(alloc, options)?,
        bare: is_on(options, "bare"),
        drivers: is_on(options, "drivers"),
    })
}

/// What `listen` asks for by these matches.
fn listen(alloc: Global, options: &ArgMatches<'_>) -> Result<ProgramCommand, WordsFault>
    ensures { Reads (listen_in (values_of (rows_of (found_of options.now)))) result }
{
    let port = number_or(options, "port", MOST_PORT, None)?;
    let workers = number_or(options, "workers", MOST_WORKERS, Some(DEFAULT_WORKERS))?;
    let rounds = rounds(options)?;
    Ok(ProgramCommand::Listen {
        port: port as u16,
        workers,
        rounds,
        user: user(alloc, options)?,
        password: password(alloc, options)?,
        drivers: is_on(options, "drivers"),
    })
}

/// What `load` asks for by these matches.
fn load(options: &ArgMatches<'_>) -> Result<ProgramCommand, WordsFault>
    ensures { Reads (load_in (values_of (rows_of (found_of options.now)))) result }
{
    let transfers = number_or(options, "transfers", MOST_TRANSFERS, None)?;
    let workers = number_or(options, "workers", MOST_WORKERS, Some(DEFAULT_WORKERS))?;
    Ok(ProgramCommand::Load { transfers, workers })
}

/// The number of rounds, where the words give one.
fn rounds(options: &ArgMatches<'_>) -> Result<Option<u32>, WordsFault>
    ensures { Finds (rounds_in (values_of (rows_of (found_of options.now)))) result }
{
    match value(options, "rounds") {
        Some(text) => match number_in(text, MOST_ROUNDS) {
            Some(number) => Ok(Some(number)),
            None => Err(WordsFault::Refused),
        },
        None => Ok(None),
    }
}

/// Whether a flag is given.
fn is_on(options: &ArgMatches<'_>, id: &str) -> bool
    ensures { result ≡ is_on (values_of (rows_of (found_of options.now)) id.now) }
{
    match value(options, id) {
        Some(text) => text == "true",
        None => false,
    }
}

/// The user who may log in.
fn user(alloc: Global, options: &ArgMatches<'_>) -> Result<Units, Memory>
    ensures { IfOk result (λ text. text ≡ user_in (values_of (rows_of (found_of options.now)))) }
{
    text_or(alloc, options, "user", DEFAULT_USER)
}

/// That user's password.
fn password(alloc: Global, options: &ArgMatches<'_>) -> Result<Units, Memory>
    ensures { IfOk result (λ text. text ≡ password_in (values_of (rows_of (found_of options.now)))) }
{
    text_or(alloc, options, "password", DEFAULT_PASSWORD)
}

/// The text of an option, or this one where the words don't give it.
fn text_or(
    alloc: Global,
    options: &ArgMatches<'_>,
    id: &str,
    default: &str,
) -> Result<Units, Memory>
    ensures { IfOk result (λ text. text ≡ text_or default.now (values_of (rows_of (found_of options.now)) id.now)) }
{
    match value(options, id) {
        Some(text) => units_of_str(alloc, text),
        None => units_of_str(alloc, default),
    }
}

/// The number of an option, or this one where the words don't give it. It is refused where it is out of form
/// or above `most`, or there is none.
fn number_or(
    options: &ArgMatches<'_>,
    id: &str,
    most: u32,
    default: Option<u32>,
) -> Result<u32, WordsFault>
    ensures { Finds (number_or default most (values_of (rows_of (found_of options.now)) id.now)) result }
{
    let number = match value(options, id) {
        Some(text) => number_in(text, most),
        None => default,
    };
    match number {
        Some(number) => Ok(number),
        None => Err(WordsFault::Refused),
    }
}

/// The value of an option, where the words give it.
fn value<'a>(options: &ArgMatches<'a>, id: &str) -> Option<&'a str>
    ensures { option_map (λ text. text.now) result ≡ values_of (rows_of (found_of options.now)) id.now }
{
    options.get_str(id)
}

/// The answer to an error of `clap`'s, which may be a text that was asked for.
fn answer_to(alloc: Global, error: &Error) -> Result<ProgramCommand, WordsFault>
    ensures { AnswersError (kind_of error.now) result }
{
    match error.kind() {
        ErrorKind::DisplayHelp | ErrorKind::DisplayVersion => Ok(ProgramCommand::Show {
            text: format!(in alloc; "{error}")?,
        }),
        ErrorKind::OutOfMemory => Err(WordsFault::Memory),
        _ => Err(WordsFault::Refused),
    }
}
