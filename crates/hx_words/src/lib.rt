//! The words of the command line of `hnc`.
//!
//! [`read_words`] takes a subcommand, and behind it, in any order and each at most once:
//!
//! | subcommand | takes |
//! |---|---|
//! | `run` | `--db PATH`, `--excluded-namespace NAMES`, `--allow-skip`, `--events` |
//! | `serve` | those of `run`, `--listen ADDRESS`, which has to stand, `--sessions NUMBER`, `--workers NUMBER`, `--links NUMBER` |
//! | `tree` | `--db PATH`, `--excluded-namespace NAMES` |
//! | `describe` | `NAMESPACE`, which has to stand, `--db PATH`, `--excluded-namespace NAMES` |
//! | `quota` | `--db PATH` |
//! | `audit` | `--db PATH`, `--excluded-namespace NAMES` |
//! | `gen` | `NUMBER` and `COUNT`, which have to stand |
#![tactic(auto)]

mod command;
mod grammar;
mod names;
mod untaken;

ghost use Rattle.std.specs.Prelude.{◌≡◌, ◌≤◌, map, IfOk, IfSome, IsErrOf, None, Some, string_bytes};
ghost use Rattle.clap.specs.Words.{found_of, rows_of};
ghost use Rattle.hx_words.specs.Words.{asked_by, command_of, config_of, description_of, has_events, if_within, number_in, printing_of, serving_in, task_of, value_of, workload_in};

pub use crate::command::{Command, Report, Serving, Task, Workload};
use crate::grammar::parsed;
use crate::names::{has_names, names_in};
pub use crate::untaken::first_untaken;
use clap::ArgMatches;
use clap::error::ErrorKind;
use hx_model::RunConfig;
use hx_object::{NoMemory, Text, is_dns_label};
use std::alloc::{AllocError, Global};

/// Why words aren't read.
#[derive(Clone, Copy, Debug, PartialEq, Eq)]
pub enum WordsFault {
    /// The words aren't taken.
    Usage,
    /// No memory was left.
    NoMemory,
}

impl From<clap::Error> for WordsFault {
    ghost use Rattle.clap.specs.Words.{kind_of};
    ghost use Rattle.hx_words.specs.Words.{fault_told};

    ghost from_gives = { λ error fault. fault ≡ fault_told (kind_of error) };

    fn from(error: clap::Error) -> Self {
        match error.kind() {
            ErrorKind::OutOfMemory => WordsFault::NoMemory,
            _ => WordsFault::Usage,
        }
    }
}

impl From<NoMemory> for WordsFault {
    ghost use Rattle.hx_words.specs.declared.WordsFault.{WordsFault};

    ghost from_gives = { λ _ fault. fault ≡ WordsFault.NoMemory };

    fn from(_: NoMemory) -> Self {
        WordsFault::NoMemory
    }
}

impl From<AllocError> for WordsFault {
    ghost use Rattle.hx_words.specs.declared.WordsFault.{WordsFault};

    ghost from_gives = { λ _ fault. fault ≡ WordsFault.NoMemory };

    fn from(_: AllocError) -> Self {
        WordsFault::NoMemory
    }
}

/// Reads the words behind the program's name: a subcommand, and behind it what it takes, in any order and each at most once.
///
/// PATH and ADDRESS are any text. A NUMBER is one as `clap` reads it: 1 to 16 sessions (else 4), 0 to 16 workers (2), 1 to 1,000,000 links (1,000,000); what parents are drawn from is 0 to 2,147,483,647, and a COUNT 1 to 2,048. NAMES are names of namespaces (DNS labels), joined by commas; the empty value has none. NAMESPACE is the name of one.
/// As is usual with `clap`, `--db=PATH` and `--excluded-namespace=NAMES` are taken too, and a PATH that begins with a dash and has more bytes only so; a word `--` says that no option follows.
/// `Usage` where the words aren't taken: another word, a missing value, an option twice, a value out of form, and a request for help or a version.
pub fn read_words(alloc: Global, words: &[String]) -> Result<Command, WordsFault>
    ensures words { IfOk result (λ command. command_of (map string_bytes words.now) ≡ Some command) }
    ensures usage { IsErrOf result WordsFault.Usage → command_of (map string_bytes words.now) ≡ None }
{
    let matches = parsed(alloc, words)?;
    match matches.subcommand() {
        Some((name, options)) => asked_by(alloc, name, options),
        None => Err(WordsFault::Usage),
    }
}

/// What a subcommand and its options ask for.
fn asked_by(alloc: Global, name: &str, options: &ArgMatches<'_>) -> Result<Command, WordsFault>
    ensures words { IfOk result (λ command. asked_by name.now (rows_of (found_of options.now)) ≡ Some command) }
    ensures usage { IsErrOf result WordsFault.Usage → asked_by name.now (rows_of (found_of options.now)) ≡ None }
{
    let task = task_of(alloc, name, options)?;
    let config = config_of(alloc, options)?;
    let db = Text::of(alloc, value_of(options, "db"))?;
    Ok(Command {
        task,
        db,
        config,
        events: has_events(options),
    })
}

/// Whether the options ask for events.
fn has_events(options: &ArgMatches<'_>) -> bool
    ensures { result ≡ has_events (rows_of (found_of options.now)) }
{
    value_of(options, "events") == "true"
}

/// The task that a subcommand names.
fn task_of(alloc: Global, name: &str, options: &ArgMatches<'_>) -> Result<Task, WordsFault>
    ensures task { IfOk result (λ task. task_of name.now (rows_of (found_of options.now)) ≡ Some task) }
    ensures usage { IsErrOf result WordsFault.Usage → task_of name.now (rows_of (found_of options.now)) ≡ None }
{
    match name {
        "run" => Ok(Task::Run),
        "serve" => serving_in(alloc, options),
        "gen" => workload_in(options),
        _ => printing_of(alloc, name, options),
    }
}

/// The task of a subcommand that prints a report.
fn printing_of(alloc: Global, name: &str, options: &ArgMatches<'_>) -> Result<Task, WordsFault>
    ensures task { IfOk result (λ task. printing_of name.now (rows_of (found_of options.now)) ≡ Some task) }
    ensures usage { IsErrOf result WordsFault.Usage → printing_of name.now (rows_of (found_of options.now)) ≡ None }
{
    match name {
        "tree" => Ok(Task::Print(Report::Tree)),
        "describe" => description_of(alloc, value_of(options, "namespace")),
        "quota" => Ok(Task::Print(Report::Quota)),
        "audit" => Ok(Task::Print(Report::Audit)),
        _ => Err(WordsFault::Usage),
    }
}

/// To serve, as the options say.
fn serving_in(alloc: Global, options: &ArgMatches<'_>) -> Result<Task, WordsFault>
    ensures task { IfOk result (λ task. serving_in (rows_of (found_of options.now)) ≡ Some task) }
    ensures usage { IsErrOf result WordsFault.Usage → serving_in (rows_of (found_of options.now)) ≡ None }
{
    let Some(sessions) = number_in(1, 16, value_of(options, "sessions")) else {
        return Err(WordsFault::Usage);
    };
    let Some(workers) = number_in(0, 16, value_of(options, "workers")) else {
        return Err(WordsFault::Usage);
    };
    let Some(links) = number_in(1, 1_000_000, value_of(options, "links")) else {
        return Err(WordsFault::Usage);
    };
    Ok(Task::Serve(Serving {
        listen: Text::of(alloc, value_of(options, "listen"))?,
        sessions: sessions as u32,
        workers: workers as u32,
        links,
    }))
}

/// To make a cluster, as the numbers say.
fn workload_in(options: &ArgMatches<'_>) -> Result<Task, WordsFault>
    ensures task { IfOk result (λ task. workload_in (rows_of (found_of options.now)) ≡ Some task) }
    ensures usage { IsErrOf result WordsFault.Usage → workload_in (rows_of (found_of options.now)) ≡ None }
{
    let Some(number) = number_in(0, 2_147_483_647, value_of(options, "number")) else {
        return Err(WordsFault::Usage);
    };
    let Some(count) = number_in(1, 2_048, value_of(options, "count")) else {
        return Err(WordsFault::Usage);
    };
    Ok(Task::Generate(Workload {
        number: number as u32,
        count: count as u32,
    }))
}

/// The number that a value says, within bounds.
fn number_in(least: u64, most: u64, value: &str) -> Option<u64>
    ensures number { result ≡ number_in least most value.now }
    ensures few { IfSome result (λ number. number ≤ most) }
{
    match value.parse::<u64>() {
        Ok(number) => if_within(least, most, number),
        Err(_) => None,
    }
}

fn if_within(least: u64, most: u64, number: u64) -> Option<u64>
    ensures number { result ≡ if_within least most number }
    ensures few { IfSome result (λ number. number ≤ most) }
{
    if least <= number && number <= most {
        Some(number)
    } else {
        None
    }
}

/// To describe a namespace.
fn description_of(alloc: Global, name: &str) -> Result<Task, WordsFault>
    ensures task { IfOk result (λ task. description_of name.now ≡ Some task) }
    ensures usage { IsErrOf result WordsFault.Usage → description_of name.now ≡ None }
{
    if !is_dns_label(name.as_bytes()) {
        return Err(WordsFault::Usage);
    }
    Ok(Task::Print(Report::Describe(Text::of(alloc, name)?)))
}

/// What the options say of the configuration.
fn config_of(alloc: Global, options: &ArgMatches<'_>) -> Result<RunConfig, WordsFault>
    ensures config { IfOk result (λ config. config_of (rows_of (found_of options.now)) ≡ Some config) }
    ensures usage { IsErrOf result WordsFault.Usage → config_of (rows_of (found_of options.now)) ≡ None }
{
    let excluded = value_of(options, "excluded-namespace");
    if !has_names(excluded) {
        return Err(WordsFault::Usage);
    }
    let allow_skip = value_of(options, "allow-skip") == "true";
    Ok(RunConfig {
        excluded: names_in(alloc, excluded)?,
        allow_skip,
    })
}

/// The value of an option, and the empty text where it isn't given.
fn value_of<'a>(options: &ArgMatches<'a>, name: &str) -> &'a str
    ensures { result.now ≡ value_of (rows_of (found_of options.now)) name.now }
{
    match options.get_str(name) {
        Some(value) => value,
        None => "",
    }
}
