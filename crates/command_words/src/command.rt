//! The `clap` command that reads the words.
ghost use Rattle.std.specs.Prelude.{◌≡◌, IfOk, false};
ghost use Rattle.clap.specs.Words.{app_of, rule_of, with_rule};
ghost use Rattle.command_words.specs.Application.{app_of_options, bare_app, cloner_app, option, positional};

use clap::{Arg, ArgAction, Command};
use std::alloc::{AllocError, Global};

// An option of this name, which takes one value.
fn option_arg<'a>(alloc: Global, name: &'a str) -> Arg<'a>
    ensures rule { rule_of result ≡ option name.entry.now }
    ensures local { result.global ≡ false }
{
    Arg::new(alloc, name).long(name).action(ArgAction::Set)
}

// A positional of this name.
fn positional_arg<'a>(alloc: Global, name: &'a str) -> Arg<'a>
    ensures rule { rule_of result ≡ positional name.entry.now }
    ensures local { result.global ≡ false }
{
    Arg::new(alloc, name)
}

// The command without its arguments.
fn bare_command<'a>(alloc: Global) -> Command<'a>
    ensures value { app_of result ≡ bare_app }
{
    Command::new(alloc, "cloner")
        .no_binary_name(true)
        .disable_help_flag(true)
}

// The command with one more argument.
fn with_arg<'a>(command: Command<'a>, arg: Arg<'a>) -> Result<Command<'a>, AllocError>
    requires local { arg.global ≡ false }
    ensures value { IfOk result (λ c. app_of c ≡ with_rule (app_of command.entry) (rule_of arg.entry)) }
{
    command.arg(arg)
}

// The command with its options.
fn command_of_options<'a>(alloc: Global) -> Result<Command<'a>, AllocError>
    ensures value { IfOk result (λ c. app_of c ≡ app_of_options) }
{
    let command = with_arg(bare_command(alloc), option_arg(alloc, "workers"))?;
    let command = with_arg(command, option_arg(alloc, "clone"))?;
    with_arg(command, option_arg(alloc, "until"))
}

/// The command: three options, and up to four positionals.
pub(crate) fn command<'a>(alloc: Global) -> Result<Command<'a>, AllocError>
    ensures value { IfOk result (λ c. app_of c ≡ cloner_app) }
{
    let command = command_of_options(alloc)?;
    let command = with_arg(command, positional_arg(alloc, "mode"))?;
    let command = with_arg(command, positional_arg(alloc, "first"))?;
    let command = with_arg(command, positional_arg(alloc, "second"))?;
    with_arg(command, positional_arg(alloc, "third"))
}
