//! The command of `clap` that reads the words in order.
ghost use Rattle.std.specs.Prelude.{◌≡◌, IfOk, false};
ghost use Rattle.clap.specs.Words.{app_of, rule_of};
ghost use Rattle.tk_words.specs.Command.{flag as flag_rule, generate as generate_app, option as option_rule, run as run_app, simulate as simulate_app, tkn as tkn_app, words as words_rule};

use clap::{Arg, ArgAction, Command};
use std::alloc::{AllocError, Global};

/// An option without a value.
fn flag<'a>(alloc: Global, id: &'a str) -> Arg<'a>
    ensures rule { rule_of result ≡ flag_rule id.entry.now }
    ensures local { result.global ≡ false }
{
    Arg::new(alloc, id).long(id).action(ArgAction::SetTrue)
}

/// An option with a value.
fn option<'a>(alloc: Global, id: &'a str) -> Arg<'a>
    ensures rule { rule_of result ≡ option_rule id.entry.now }
    ensures local { result.global ≡ false }
{
    Arg::new(alloc, id).long(id).action(ArgAction::Set)
}

/// Any number of words.
fn words<'a>(alloc: Global, id: &'a str) -> Arg<'a>
    ensures rule { rule_of result ≡ words_rule id.entry.now }
    ensures local { result.global ≡ false }
{
    Arg::new(alloc, id).action(ArgAction::Append)
}

/// The subcommand `simulate`.
fn simulate<'a>(alloc: Global) -> Result<Command<'a>, AllocError>
    ensures { IfOk result (λ c. app_of c ≡ simulate_app) }
{
    Command::new(alloc, "simulate").arg(flag(alloc, "json"))
}

/// The subcommand `run`.
fn run<'a>(alloc: Global) -> Result<Command<'a>, AllocError>
    ensures { IfOk result (λ c. app_of c ≡ run_app) }
{
    Command::new(alloc, "run")
        .arg(flag(alloc, "json"))?
        .arg(option(alloc, "root"))?
        .arg(words(alloc, "others"))
}

/// The subcommand `generate`.
fn generate<'a>(alloc: Global) -> Result<Command<'a>, AllocError>
    ensures { IfOk result (λ c. app_of c ≡ generate_app) }
{
    Command::new(alloc, "generate")
        .arg(flag(alloc, "run"))?
        .arg(words(alloc, "others"))
}

/// The command `tkn`, with its subcommands. The only error is want of memory.
pub(crate) fn tkn<'a>(alloc: Global) -> Result<Command<'a>, AllocError>
    ensures { IfOk result (λ c. app_of c ≡ tkn_app) }
{
    Command::new(alloc, "tkn")
        .disable_help_flag(true)
        .disable_help_subcommand(true)
        .subcommand(Command::new(alloc, "check"))?
        .subcommand(Command::new(alloc, "decide"))?
        .subcommand(simulate(alloc)?)?
        .subcommand(run(alloc)?)?
        .subcommand(generate(alloc)?)
}
