//! The command, as `clap` takes it.

ghost use Rattle.std.specs.Prelude.{◌≡◌, [], false, IfOk, IsOkAnd, true};
ghost use Rattle.clap.specs.declared.builder.command.Command.TheViews.{out-Command};
ghost use Rattle.clap.specs.Walk.{rule_of};
ghost use Rattle.clap.specs.Simple.{app_of, with_rule, with_subcommand};
ghost use Rattle.command_words.specs.Command.{option_rule, netherite, run_shape, show_shape, IsCommand};

use clap::{Arg, ArgAction, Command};
use std::alloc::{AllocError, Global};

/// An option `--name VALUE` with a default.
fn option<'a>(alloc: Global, name: &'a str, default: &'a str) -> Arg<'a>
    ensures rule { rule_of result ≡ option_rule name.now default.now }
    ensures local { result.global ≡ false }
{
    Arg::new(alloc, name)
        .long(name)
        .action(ArgAction::Set)
        .default_value(default)
}

/// The command, where there is one, with an option `--name VALUE` too.
fn with_option<'a>(
    alloc: Global,
    command: Result<Command<'a>, AllocError>,
    name: &'a str,
    default: &'a str,
) -> Result<Command<'a>, AllocError>
    requires { IfOk command (λ c. (out-Command c).has_globals ≡ false) }
    ensures { IfOk result (λ c. IsOkAnd command.entry
        (λ before. IsCommand (with_rule (app_of before) (option_rule name.now default.now)) c)) }
{
    match command {
        Ok(command) => command.arg(option(alloc, name, default)),
        Err(error) => Err(error),
    }
}

fn run_command<'a>(alloc: Global) -> Result<Command<'a>, AllocError>
    ensures { IfOk result (IsCommand (record { top = run_shape; subs = [] })) }
{
    let command = Ok(Command::new(alloc, "run"));
    let command = with_option(alloc, command, "partitions", "4");
    let command = with_option(alloc, command, "nodes", "1");
    let command = with_option(alloc, command, "mode", "global");
    let command = with_option(alloc, command, "batch", "16");
    let command = with_option(alloc, command, "steps", "1048576");
    let command = with_option(alloc, command, "seed", "0");
    let command = with_option(alloc, command, "twice", "0");
    let command = with_option(alloc, command, "drop", "0");
    let command = with_option(alloc, command, "hold", "0");
    with_option(alloc, command, "segment", "2147483648")
}

fn show_command<'a>(alloc: Global) -> Result<Command<'a>, AllocError>
    ensures { IfOk result (IsCommand (record { top = show_shape; subs = [] })) }
{
    let command = Ok(Command::new(alloc, "show"));
    with_option(alloc, command, "partitions", "4")
}

/// The command, without its subcommands.
fn top<'a>(alloc: Global) -> Command<'a>
    ensures { IsCommand (record { top = record netherite.top { is_leaf = true }; subs = [] })
        result }
{
    Command::new(alloc, "netherite")
        .no_binary_name(true)
        .disable_help_flag(true)
        .disable_help_subcommand(true)
        .disable_version_flag(true)
        .subcommand_required(true)
}

/// The command with a subcommand too, where there is one.
fn with_subcommand<'a>(
    command: Command<'a>,
    sub: Result<Command<'a>, AllocError>,
) -> Result<Command<'a>, AllocError>
    requires { IfOk sub (λ s. (out-Command s).has_globals ≡ false) }
    ensures { IfOk result (λ c. IsOkAnd sub.entry
        (λ s. app_of c ≡ with_subcommand (app_of command.entry) (app_of s).top)) }
{
    match sub {
        Ok(sub) => command.subcommand(sub),
        Err(error) => {
            drop(command);
            Err(error)
        }
    }
}

/// The command as `clap` knows it, with its options.
pub(crate) fn netherite<'a>(alloc: Global) -> Result<Command<'a>, AllocError>
    ensures { IfOk result (λ c. app_of c ≡ netherite) }
{
    match with_subcommand(top(alloc), run_command(alloc)) {
        Ok(command) => with_subcommand(command, show_command(alloc)),
        Err(error) => Err(error),
    }
}
