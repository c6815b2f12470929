//! The `clap` command that reads the words.

ghost use Rattle.std.specs.Prelude.{◌≡◌, IfOk, false};
ghost use Rattle.clap.specs.Words.{app_of, rule_of};
ghost use Rattle.clap.specs.declared.builder.command.Command.TheViews.{out-Command as fields_of};
ghost use Rattle.program_words.specs.Options.{program, pipe, listen, steps, load, text_rule, flag_rule, bare_rule, drivers_rule, port_rule, rounds_rule, transfers_rule, user_rule, password_rule, workers_rule};

use clap::{Arg, ArgAction, Command, value_parser};
use std::alloc::{AllocError, Global};

/// The greatest port.
pub(crate) const MOST_PORT: u32 = 65535;

/// The most workers.
pub(crate) const MOST_WORKERS: u32 = 64;

/// The most rounds.
pub(crate) const MOST_ROUNDS: u32 = 1000000000;

/// The most transfers of a worker.
pub(crate) const MOST_TRANSFERS: u32 = 10000;

/// The command of the program, with its subcommands.
pub(crate) fn program<'a>(alloc: Global) -> Result<Command<'a>, AllocError>
    ensures { IfOk result (λ command. app_of command ≡ program) }
{
    Command::new(alloc, "tsqld")
        .version("0.1.0")
        .about("A database server in memory that speaks TDS 7.4")
        .subcommand_required(true)
        .disable_help_subcommand(true)
        .subcommand(pipe(alloc)?)?
        .subcommand(listen(alloc)?)?
        .subcommand(steps(alloc))?
        .subcommand(load(alloc)?)
}

/// `pipe`, with its options.
fn pipe<'a>(alloc: Global) -> Result<Command<'a>, AllocError>
    ensures app { IfOk result (λ command. app_of command ≡ pipe) }
    ensures local { IfOk result (λ command. (fields_of command).has_globals ≡ false) }
{
    Command::new(alloc, "pipe")
        .about("Serves one connection on standard input and output")
        .arg(user(alloc))?
        .arg(password(alloc))?
        .arg(bare(alloc))?
        .arg(drivers(alloc))
}

/// `listen`, with its options.
fn listen<'a>(alloc: Global) -> Result<Command<'a>, AllocError>
    ensures app { IfOk result (λ command. app_of command ≡ listen) }
    ensures local { IfOk result (λ command. (fields_of command).has_globals ≡ false) }
{
    Command::new(alloc, "listen")
        .about("Serves connections on a port of this machine")
        .arg(port(alloc))?
        .arg(workers(alloc))?
        .arg(rounds(alloc))?
        .arg(user(alloc))?
        .arg(password(alloc))?
        .arg(drivers(alloc))
}

/// `steps`.
fn steps<'a>(alloc: Global) -> Command<'a>
    ensures app { app_of result ≡ steps }
    ensures local { (fields_of result).has_globals ≡ false }
{
    Command::new(alloc, "steps").about("Answers a script of engine steps from standard input")
}

/// `load`, with its number and its option.
fn load<'a>(alloc: Global) -> Result<Command<'a>, AllocError>
    ensures app { IfOk result (λ command. app_of command ≡ load) }
    ensures local { IfOk result (λ command. (fields_of command).has_globals ≡ false) }
{
    Command::new(alloc, "load")
        .about("Runs transfers between accounts in memory")
        .arg(transfers(alloc))?
        .arg(workers(alloc))
}

/// `--bare`.
fn bare<'a>(alloc: Global) -> Arg<'a>
    ensures rule { rule_of result ≡ bare_rule }
    ensures local { result.global ≡ false }
{
    flag(alloc, "bare", "The client is logged in from the beginning")
}

/// `--drivers`.
fn drivers<'a>(alloc: Global) -> Arg<'a>
    ensures rule { rule_of result ≡ drivers_rule }
    ensures local { result.global ≡ false }
{
    flag(alloc, "drivers", "What drivers send is served, too")
}

/// `--port`.
fn port<'a>(alloc: Global) -> Arg<'a>
    ensures rule { rule_of result ≡ port_rule }
    ensures local { result.global ≡ false }
{
    option(alloc, "port", "PORT", "The port, 1 to 65535")
        .required(true)
        .value_parser(value_parser!(u32).range(1..=65535))
}

/// `--rounds`.
fn rounds<'a>(alloc: Global) -> Arg<'a>
    ensures rule { rule_of result ≡ rounds_rule }
    ensures local { result.global ≡ false }
{
    let help =
        "The connections that are served in all, 1 to 1000000000; without it there is no end";
    option(alloc, "rounds", "ROUNDS", help).value_parser(value_parser!(u32).range(1..=1000000000))
}

/// `--workers`.
fn workers<'a>(alloc: Global) -> Arg<'a>
    ensures rule { rule_of result ≡ workers_rule }
    ensures local { result.global ≡ false }
{
    option(
        alloc,
        "workers",
        "WORKERS",
        "The workers, 1 to 64 [default: 4]",
    )
    .value_parser(value_parser!(u32).range(1..=64))
}

/// N.
fn transfers<'a>(alloc: Global) -> Arg<'a>
    ensures rule { rule_of result ≡ transfers_rule }
    ensures local { result.global ≡ false }
{
    Arg::new(alloc, "transfers")
        .value_name("N")
        .help("The transfers that each worker sends, 1 to 10000")
        .required(true)
        .value_parser(value_parser!(u32).range(1..=10000))
}

/// `--user`.
fn user<'a>(alloc: Global) -> Arg<'a>
    ensures rule { rule_of result ≡ user_rule }
    ensures local { result.global ≡ false }
{
    option(
        alloc,
        "user",
        "USER",
        "The user who may log in [default: sa]",
    )
}

/// `--password`.
fn password<'a>(alloc: Global) -> Arg<'a>
    ensures rule { rule_of result ≡ password_rule }
    ensures local { result.global ≡ false }
{
    option(
        alloc,
        "password",
        "PASSWORD",
        "That user's password [default: A]",
    )
}

/// `--name`, which has no value.
fn flag<'a>(alloc: Global, name: &'a str, help: &'a str) -> Arg<'a>
    ensures rule { rule_of result ≡ flag_rule name.now }
    ensures local { result.global ≡ false }
{
    Arg::new(alloc, name)
        .long(name)
        .action(ArgAction::SetTrue)
        .help(help)
}

/// `--name`, which has one value.
fn option<'a>(alloc: Global, name: &'a str, value: &'a str, help: &'a str) -> Arg<'a>
    ensures rule { rule_of result ≡ text_rule name.now }
    ensures local { result.global ≡ false }
    ensures no_parser { result.value_parser ≡ None }
{
    Arg::new(alloc, name)
        .long(name)
        .value_name(value)
        .help(help)
}
