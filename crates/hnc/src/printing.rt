// The reports on what is stored.
ghost use Rattle.std.specs.Prelude.{◌≡◌, ◌≢◌, ◌⊎◌, [], Some, IfOk, true, string_bytes};
ghost use Rattle.hx_model.specs.State.{State, ascends};
ghost use Rattle.hx_ports.specs.Causes.{Rose};
ghost use Rattle.hx_ports.specs.Pieces.{IsCalm};
ghost use Rattle.hx_audit.specs.Auditing.{HasRows};
ghost use Rattle.hx_survey.specs.Surveyed.{namespaces_lie_alone};
ghost use Rattle.hx_report.specs.Sums.{quota_text};
ghost use Rattle.hx_report.specs.Trees.{tree_text};
ghost use Rattle.hnc.specs.Reports.{IsAudited, IsDescribed, Says, SaysFront, IsReportOn, audit_line, is_told};

use crate::top::Status;
use hx_audit::first_wanting;
use hx_core::Cluster;
use hx_model::Key;
use hx_object::{Kind, NoMemory, Shared, Text};
use hx_ports::{Keeper, Sink, write_all};
use hx_report::{describe, quota, tree};
use hx_script::push_key;
use hx_survey::Survey;
use hx_words::Report;
use std::alloc::Global;

/// A report's text, and the status that it ends with.
#[derive(Drop)]
struct Told {
    text: String,
    status: Status,
}

/// Prints a report on what a cluster holds, and gives the status that the command ends with.
pub fn print<W: Sink, K: Keeper>(
    alloc: Global,
    cluster: &Cluster<K>,
    report: &Report,
    sink: &mut W,
) -> Status
    ensures ends { (is_told result ≡ true) ⊎ (result ≡ Status.WriteFault) ⊎ (result ≡ Status.NoMemory) }
    ensures told { is_told result ≡ true → Says report.now result cluster.now.state [] (W.shown sink.old) (W.shown sink.new) }
    ensures cut { result ≡ Status.WriteFault → SaysFront report.now cluster.now.state (W.shown sink.old) (W.shown sink.new) }
    ensures unwritten { result ≡ Status.NoMemory → sink.new ≡ sink.old }
    ensures write_fault { result ≡ Status.WriteFault → Rose (W.shown sink.old).faults (W.shown sink.new).faults ⊎ Rose (W.shown sink.old).stalls (W.shown sink.new).stalls }
    ensures calm { result ≢ Status.WriteFault → IsCalm (W.shown sink.old) (W.shown sink.new) }
{
    let told = match report_of(alloc, cluster, report) {
        Ok(told) => told,
        Err(NoMemory) => return Status::NoMemory,
    };
    match write_all(sink, told.text.as_bytes()) {
        Ok(()) => told.status,
        Err(_) => Status::WriteFault,
    }
}

/// The report on what a cluster holds.
fn report_of<K: Keeper>(
    alloc: Global,
    cluster: &Cluster<K>,
    report: &Report,
) -> Result<Told, NoMemory>
    ensures tells { IfOk result (λ told. IsReportOn report.now told.status cluster.now.state (string_bytes told.text)) }
    ensures told { IfOk result (λ told. is_told told.status ≡ true) }
{
    cluster.law_of_worlds();
    let rows = cluster.rows()?;
    report_on(alloc, &rows, cluster.config().excluded.as_slice(), report)
}

/// The report on rows.
fn report_on(
    alloc: Global,
    rows: &[Shared],
    excluded: &[Text],
    report: &Report,
) -> Result<Told, NoMemory>
    requires order { ascends rows.now ≡ true }
    requires homes { namespaces_lie_alone rows.now ≡ true }
    ensures tells { IfOk result (λ told. (s : State) → HasRows rows.now excluded.now s → IsReportOn report.now told.status s (string_bytes told.text)) }
    ensures told { IfOk result (λ told. is_told told.status ≡ true) }
{
    match report {
        Report::Tree => tree_on(alloc, rows, excluded),
        Report::Describe(ns) => describe_on(alloc, rows, excluded, ns),
        Report::Quota => quota_on(alloc, rows, excluded),
        Report::Audit => audit_on(alloc, rows, excluded),
    }
}

/// The namespaces as trees.
fn tree_on(alloc: Global, rows: &[Shared], excluded: &[Text]) -> Result<Told, NoMemory>
    requires order { ascends rows.now ≡ true }
    requires homes { namespaces_lie_alone rows.now ≡ true }
    ensures text { IfOk result (λ told. string_bytes told.text ≡ tree_text excluded.now rows.now) }
    ensures status { IfOk result (λ told. told.status ≡ Status.Done) }
{
    let survey = Survey::new(alloc, rows, excluded)?;
    Ok(done(tree(&survey)?))
}

/// What a namespace has of its place in the tree, or nothing where it isn't there.
fn describe_on(
    alloc: Global,
    rows: &[Shared],
    excluded: &[Text],
    ns: &Text,
) -> Result<Told, NoMemory>
    requires order { ascends rows.now ≡ true }
    requires homes { namespaces_lie_alone rows.now ≡ true }
    ensures text { IfOk result (λ told. IsDescribed excluded.now rows.now ns.now told.status (string_bytes told.text)) }
    ensures told { IfOk result (λ told. is_told told.status ≡ true) }
{
    let survey = Survey::new(alloc, rows, excluded)?;
    if survey.find(Kind::Namespace, "", ns.as_str()).is_none() {
        return Ok(Told {
            text: String::new(alloc),
            status: Status::NotFound,
        });
    }
    Ok(done(describe(&survey, ns)?))
}

/// What quotas limit, and what is used of it.
fn quota_on(alloc: Global, rows: &[Shared], excluded: &[Text]) -> Result<Told, NoMemory>
    requires order { ascends rows.now ≡ true }
    requires homes { namespaces_lie_alone rows.now ≡ true }
    ensures text { IfOk result (λ told. string_bytes told.text ≡ quota_text excluded.now rows.now) }
    ensures status { IfOk result (λ told. told.status ≡ Status.Done) }
{
    let survey = Survey::with_sums(alloc, rows, excluded)?;
    Ok(done(quota(&survey)?))
}

/// Whether reconcilers have anything left to write, and what is the first of it.
fn audit_on(alloc: Global, rows: &[Shared], excluded: &[Text]) -> Result<Told, NoMemory>
    requires order { ascends rows.now ≡ true }
    requires homes { namespaces_lie_alone rows.now ≡ true }
    ensures text { IfOk result (λ told. (s : State) → HasRows rows.now excluded.now s → IsAudited s told.status (string_bytes told.text)) }
    ensures told { IfOk result (λ told. is_told told.status ≡ true) }
{
    match first_wanting(alloc, rows, excluded)? {
        None => Ok(done(String::from_str(alloc, "settled\n")?)),
        Some(key) => Ok(Told {
            text: difference(alloc, &key)?,
            status: Status::Unsettled,
        }),
    }
}

/// The line that names a key which wants a write.
fn difference(alloc: Global, key: &Key) -> Result<String, NoMemory>
    ensures { IfOk result (λ text. string_bytes text ≡ audit_line (Some key.now)) }
{
    let mut text = String::from_str(alloc, "differs ")?;
    push_key(&mut text, key)?;
    text.push('\n')?;
    Ok(text)
}

/// A report that was made, of which nothing else is to be told.
fn done(text: String) -> Told
    ensures { (result.text ≡ text) × (result.status ≡ Status.Done) }
{
    Told {
        text,
        status: Status::Done,
    }
}
