//! The command line as clap sees it.
ghost use Rattle.std.specs.Prelude.{◌≡◌, IfOk, false};
ghost use Rattle.clap.specs.Words.{app_of, rule_of, with_rule};
ghost use Rattle.mh_opts.specs.App.{bare_app, grammars_rule, menhir_app, option_rule, plain, plain_rows, with_options};

use crate::jobs::{GRAMMARS, Opt, options};
use clap::{Arg, ArgAction, Command};
use std::alloc::{AllocError, Global};

/// The `Arg` that declares the option to clap.
fn argument<'a>(alloc: Global, option: &Opt<&'a str>) -> Arg<'a>
    ensures rule { rule_of result ≡ option_rule (plain option.now (λ name. name.now)) }
    ensures local { result.global ≡ false }
{
    let name = option.name;
    Arg::new(alloc, name).long(name).action(option.action)
}

/// Adds the options to the command. A function of its own (`argument`) makes each argument, because the proof of each
/// step takes long where a command is in scope.
fn with_all<'a>(
    alloc: Global,
    mut command: Command<'a>,
    options: &[Opt<&'a str>],
) -> Result<Command<'a>, AllocError>
    ensures { IfOk result (λ c. app_of c ≡ with_options (plain_rows options.now (λ name. name.now)) (app_of command.entry)) }
{
    for option in options {
        command = command.arg(argument(alloc, option))?;
    }
    Ok(command)
}

/// The `Arg` that declares the words that are not options to clap, which keeps all of them, in order.
fn grammars<'a>(alloc: Global) -> Arg<'a>
    ensures rule { rule_of result ≡ grammars_rule }
    ensures local { result.global ≡ false }
{
    Arg::new(alloc, GRAMMARS).action(ArgAction::Append)
}

/// The command without options.
fn bare_command<'a>(alloc: Global) -> Result<Command<'a>, AllocError>
    ensures { IfOk result (λ c. app_of c ≡ with_rule bare_app grammars_rule) }
{
    Command::new(alloc, "menhir")
        .no_binary_name(true)
        .arg(grammars(alloc))
}

/// The command with its options and grammar files. Fails only if memory runs out.
pub fn menhir_command<'a>(alloc: Global) -> Result<Command<'a>, AllocError>
    ensures { IfOk result (λ c. app_of c ≡ menhir_app) }
{
    match bare_command(alloc) {
        Ok(command) => with_all(alloc, command, options()),
        Err(error) => Err(error),
    }
}
