// The words' grammar, as `clap` reads it.
ghost use Rattle.std.specs.Prelude.{◌≡◌, false, map, IfOk, string_bytes};
ghost use Rattle.clap.specs.Words.{app_of, fault_of, rule_of, subcommand_of, subcommand_rows_of, FailsBy};
ghost use Rattle.clap.specs.declared.builder.command.Command.TheViews.{out-Command as fields_of};
ghost use Rattle.hx_words.specs.Words as spec;

use clap::builder::ValueParser;
use clap::{Arg, ArgAction, ArgMatches, Command, Error};
use std::alloc::{AllocError, Global};

/// The matches of the words.
pub(crate) fn parsed<'a>(alloc: Global, words: &'a [String]) -> Result<ArgMatches<'a>, Error>
    ensures fails { FailsBy (fault_of spec.hnc (map string_bytes words.now)) result }
    ensures matches { IfOk result (λ matches. subcommand_rows_of matches ≡ subcommand_of spec.hnc (map string_bytes words.now)) }
{
    hnc(alloc)?.try_get_matches_from(words)
}

/// The program with all its subcommands.
fn hnc<'a>(alloc: Global) -> Result<Command<'a>, AllocError>
    ensures app { IfOk result (λ command. app_of command ≡ spec.hnc) }
{
    reading(alloc)?.subcommand(generate(alloc)?)
}

/// The program with the subcommands that change or read what is stored.
fn reading<'a>(alloc: Global) -> Result<Command<'a>, AllocError>
    ensures app { IfOk result (λ command. app_of command ≡ spec.reading) }
{
    let trees = trees(alloc)?.subcommand(stored(alloc, "quota")?)?;
    trees.subcommand(in_trees(alloc, "audit")?)
}

/// The program with the subcommands on trees.
fn trees<'a>(alloc: Global) -> Result<Command<'a>, AllocError>
    ensures app { IfOk result (λ command. app_of command ≡ spec.trees) }
{
    let showing = changing(alloc)?.subcommand(in_trees(alloc, "tree")?)?;
    showing.subcommand(describe(alloc)?)
}

/// The program with the subcommands that change what is stored.
fn changing<'a>(alloc: Global) -> Result<Command<'a>, AllocError>
    ensures app { IfOk result (λ command. app_of command ≡ spec.changing) }
{
    let scripted = program(alloc).subcommand(running(alloc, "run")?)?;
    scripted.subcommand(serve(alloc)?)
}

/// The program: it has to be given a subcommand, and has no help.
fn program<'a>(alloc: Global) -> Command<'a>
    ensures app { app_of result ≡ spec.program }
    ensures local { (fields_of result).has_globals ≡ false }
{
    Command::new(alloc, "hnc")
        .no_binary_name(true)
        .subcommand_required(true)
        .disable_help_flag(true)
        .disable_help_subcommand(true)
}

/// A subcommand that changes what is stored.
fn running<'a>(alloc: Global, name: &'a str) -> Result<Command<'a>, AllocError>
    ensures app { IfOk result (λ command. app_of command ≡ spec.running name.entry.now) }
    ensures local { IfOk result (λ command. (fields_of command).has_globals ≡ false) }
{
    let skipping = in_trees(alloc, name)?.arg(flag(alloc, "allow-skip"))?;
    skipping.arg(flag(alloc, "events"))
}

fn serve<'a>(alloc: Global) -> Result<Command<'a>, AllocError>
    ensures app { IfOk result (λ command. app_of command ≡ spec.serve) }
    ensures local { IfOk result (λ command. (fields_of command).has_globals ≡ false) }
{
    let listening = listening(alloc)?;
    let sessions = listening.arg(number_option(alloc, "sessions", 1, 16, "4"))?;
    let workers = sessions.arg(number_option(alloc, "workers", 0, 16, "2"))?;
    workers.arg(number_option(alloc, "links", 1, 1_000_000, "1000000"))
}

/// The subcommand that serves, with its address.
fn listening<'a>(alloc: Global) -> Result<Command<'a>, AllocError>
    ensures app { IfOk result (λ command. app_of command ≡ spec.listening) }
    ensures local { IfOk result (λ command. (fields_of command).has_globals ≡ false) }
{
    running(alloc, "serve")?.arg(required_option(alloc, "listen"))
}

fn describe<'a>(alloc: Global) -> Result<Command<'a>, AllocError>
    ensures app { IfOk result (λ command. app_of command ≡ spec.describe) }
    ensures local { IfOk result (λ command. (fields_of command).has_globals ≡ false) }
{
    in_trees(alloc, "describe")?.arg(positional(alloc, "namespace"))
}

/// The subcommand that makes a cluster, with its two numbers.
fn generate<'a>(alloc: Global) -> Result<Command<'a>, AllocError>
    ensures app { IfOk result (λ command. app_of command ≡ spec.generate) }
    ensures local { IfOk result (λ command. (fields_of command).has_globals ≡ false) }
{
    let numbered = Command::new(alloc, "gen").arg(number(alloc, "number", 0, 2_147_483_647))?;
    numbered.arg(number(alloc, "count", 1, 2_048))
}

/// A subcommand that reads what is stored, with the namespaces that take no part.
fn in_trees<'a>(alloc: Global, name: &'a str) -> Result<Command<'a>, AllocError>
    ensures app { IfOk result (λ command. app_of command ≡ spec.in_trees name.entry.now) }
    ensures local { IfOk result (λ command. (fields_of command).has_globals ≡ false) }
{
    stored(alloc, name)?.arg(text_option(alloc, "excluded-namespace"))
}

/// A subcommand that reads what is stored.
fn stored<'a>(alloc: Global, name: &'a str) -> Result<Command<'a>, AllocError>
    ensures app { IfOk result (λ command. app_of command ≡ spec.stored name.entry.now) }
    ensures local { IfOk result (λ command. (fields_of command).has_globals ≡ false) }
{
    Command::new(alloc, name).arg(text_option(alloc, "db"))
}

/// An option with a value.
fn text_option<'a>(alloc: Global, name: &'a str) -> Arg<'a>
    ensures rule { rule_of result ≡ spec.text_option name.entry.now }
    ensures local { result.global ≡ false }
{
    Arg::new(alloc, name).long(name)
}

/// An option with a value, which has to stand.
fn required_option<'a>(alloc: Global, name: &'a str) -> Arg<'a>
    ensures rule { rule_of result ≡ spec.required_option name.entry.now }
    ensures local { result.global ≡ false }
{
    text_option(alloc, name).required(true)
}

/// An option whose value is a number within bounds, and one that stands for it where it isn't given.
fn number_option<'a>(alloc: Global, name: &'a str, least: u64, most: u64, usual: &'a str) -> Arg<'a>
    ensures rule { rule_of result ≡ spec.number_option name.entry.now least most usual.entry.now }
    ensures local { result.global ≡ false }
{
    text_option(alloc, name)
        .value_parser(ValueParser::unsigned(least, most))
        .default_value(usual)
}

/// An option without a value.
fn flag<'a>(alloc: Global, name: &'a str) -> Arg<'a>
    ensures rule { rule_of result ≡ spec.flag name.entry.now }
    ensures local { result.global ≡ false }
{
    Arg::new(alloc, name).long(name).action(ArgAction::SetTrue)
}

/// A value that has to stand, without an option before it.
fn positional<'a>(alloc: Global, name: &'a str) -> Arg<'a>
    ensures rule { rule_of result ≡ spec.positional name.entry.now }
    ensures local { result.global ≡ false }
{
    Arg::new(alloc, name).required(true)
}

/// A number within bounds that has to stand, without an option before it.
fn number<'a>(alloc: Global, name: &'a str, least: u64, most: u64) -> Arg<'a>
    ensures rule { rule_of result ≡ spec.number name.entry.now least most }
    ensures local { result.global ≡ false }
{
    positional(alloc, name).value_parser(ValueParser::unsigned(least, most))
}
