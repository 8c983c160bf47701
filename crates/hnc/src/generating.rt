// A cluster of a given size, which is made, settled and counted.
ghost use Rattle.std.specs.Prelude.{◌≡◌, ◌≢◌, ◌⊎◌, ◌++◌, [], false, true, IfOk, OnOk, OnErr, string_bytes};
ghost use Rattle.hx_gen.specs.Asked.{asks_of};
ghost use Rattle.hx_ports.specs.Causes.{Rose};
ghost use Rattle.hx_ports.specs.Pieces.{IsCalm};
ghost use Rattle.hx_model.specs.State.{ascends};
ghost use Rattle.hx_report.specs.Summing.{summary_text};
ghost use Rattle.hx_script.specs.Turns.{settled_line};
ghost use Rattle.hx_survey.specs.Surveyed.{namespaces_lie_alone};
ghost use Rattle.hnc.specs.Generating.{HasAsked, HasAskedAll, HasGenerated, HasGeneratedFront, HasSettled, IsMadeInPart, IsMadeTo, IsNextAsked, SettlesSome, told_of};

use crate::bounding::turns_enough;
use crate::top::Status;
use hx_core::{Cluster, Settle};
use hx_gen::Generated;
use hx_model::{Answer, Refusal};
use hx_object::{NoMemory, Shared, Text};
use hx_ports::{Keeper, Sink, write_all};
use hx_report::summary;
use hx_script::push_settled;
use hx_survey::Survey;
use hx_words::Workload;
use std::alloc::Global;

/// Makes a cluster of a given size, settles it, and prints what it counts and how settling ended. Gives the status that the command ends with.
pub(crate) fn generate<W: Sink, K: Keeper>(
    alloc: Global,
    cluster: &mut Cluster<K>,
    workload: Workload,
    sink: &mut W,
) -> Status
    requires { cluster.old.workers.hands ≡ [] }
    ensures ends { (result ≡ Status.Done) ⊎ (result ≡ Status.WriteFault) ⊎ (result ≡ Status.NoMemory) }
    ensures made { result ≡ Status.Done → HasGenerated (asks_of workload.number workload.count) [] cluster.old cluster.new (W.shown sink.old) (W.shown sink.new) }
    ensures cut { result ≡ Status.WriteFault → HasGeneratedFront (asks_of workload.number workload.count) cluster.old cluster.new (W.shown sink.old) (W.shown sink.new) }
    ensures part { result ≡ Status.NoMemory → IsMadeInPart (asks_of workload.number workload.count) cluster.old cluster.new }
    ensures unwritten { result ≡ Status.NoMemory → sink.new ≡ sink.old }
    ensures write_fault { result ≡ Status.WriteFault → Rose (W.shown sink.old).faults (W.shown sink.new).faults ⊎ Rose (W.shown sink.old).stalls (W.shown sink.new).stalls }
    ensures calm { result ≢ Status.WriteFault → IsCalm (W.shown sink.old) (W.shown sink.new) }
{
    let end = match make_settled(alloc, cluster, workload) {
        Ok(end) => end,
        Err(NoMemory) => return Status::NoMemory,
    };
    let text = match told_of(alloc, cluster, end) {
        Ok(text) => text,
        Err(NoMemory) => return Status::NoMemory,
    };
    match write_all(sink, text.as_bytes()) {
        Ok(()) => Status::Done,
        Err(_) => Status::WriteFault,
    }
}

/// Makes a cluster of a given size, and settles it.
fn make_settled<K: Keeper>(
    alloc: Global,
    cluster: &mut Cluster<K>,
    workload: Workload,
) -> Result<Settle, NoMemory>
    requires { cluster.old.workers.hands ≡ [] }
    ensures made { IfOk result (λ end. IsMadeTo (asks_of workload.number workload.count) cluster.old end cluster.new) }
    ensures part { OnErr result (IsMadeInPart (asks_of workload.number workload.count) cluster.old cluster.new) }
{
    let mut generated = Generated::new(alloc, workload.number, workload.count);
    ask_all(&mut generated, cluster)?;
    settle_all(alloc, cluster)
}

/// Makes all asks. What is refused is passed over.
fn ask_all<K: Keeper>(generated: &mut Generated, cluster: &mut Cluster<K>) -> Result<(), NoMemory>
    ensures all { OnOk result (HasAskedAll generated.old [] cluster.old cluster.new) }
    ensures some { OnErr result (HasAsked generated.old generated.new cluster.old cluster.new) }
{
    cluster.law_of_worlds();
    while ask_next(generated, cluster)? {}
    Ok(())
}

/// Makes the next ask, and tells whether there was one.
fn ask_next<K: Keeper>(
    generated: &mut Generated,
    cluster: &mut Cluster<K>,
) -> Result<bool, NoMemory>
    ensures { IsNextAsked result generated.old generated.new cluster.old cluster.new }
{
    let Some(ask) = generated.next_ask()? else {
        return Ok(false);
    };
    let answer = cluster.request(ask);
    if wants_memory(&answer) {
        return Err(NoMemory);
    }
    Ok(true)
}

/// Whether an ask was lost for want of memory.
fn wants_memory(answer: &Answer) -> bool
    ensures { result ≡ false → answer.now ≢ Answer.Refused Refusal.NoMemory }
{
    matches!(answer, Answer::Refused(Refusal::NoMemory))
}

/// Settles the cluster, by as many turns as suffice.
fn settle_all<K: Keeper>(alloc: Global, cluster: &mut Cluster<K>) -> Result<Settle, NoMemory>
    requires { cluster.old.workers.hands ≡ [] }
    ensures settled { IfOk result (λ end. HasSettled cluster.old end cluster.new) }
    ensures some { OnErr result (SettlesSome cluster.old cluster.new) }
{
    cluster.law_of_worlds();
    let turns = turns_enough(cluster)?;
    let mut trace = Vec::new(alloc);
    let end = cluster.settle(turns, &mut trace);
    drop(trace);
    unless_wanting(end)
}

/// The end of a settle, unless memory was wanting.
fn unless_wanting(end: Settle) -> Result<Settle, NoMemory>
    ensures { IfOk result (λ told. (told ≡ end) × (end ≢ Settle.NoMemory)) }
{
    match end {
        Settle::NoMemory => Err(NoMemory),
        end => Ok(end),
    }
}

/// What a cluster counts, and how settling it ended.
fn told_of<K: Keeper>(alloc: Global, cluster: &Cluster<K>, end: Settle) -> Result<String, NoMemory>
    ensures { IfOk result (λ text. string_bytes text ≡ told_of cluster.now.state end) }
{
    cluster.law_of_worlds();
    let rows = cluster.rows()?;
    told_on(alloc, &rows, cluster.config().excluded.as_slice(), end)
}

/// What rows count, and how settling them ended.
fn told_on(
    alloc: Global,
    rows: &[Shared],
    excluded: &[Text],
    end: Settle,
) -> Result<String, NoMemory>
    requires order { ascends rows.now ≡ true }
    requires homes { namespaces_lie_alone rows.now ≡ true }
    ensures { IfOk result (λ text. string_bytes text ≡ summary_text excluded.now rows.now ++ settled_line end) }
{
    let survey = Survey::new(alloc, rows, excluded)?;
    let mut text = summary(&survey)?;
    push_settled(&mut text, end)?;
    Ok(text)
}
