// Lines that are answered one by one.
ghost use Rattle.std.specs.Prelude.{◌≡◌, ◌≢◌, [], ◌∷◌, Ok, OnOk, OnErr, Result};
ghost use Rattle.std.specs.Str.Lines.{strip_carriage_return};
ghost use Rattle.hx_model.specs.Serving.{IsServedAsk, IsLegalAnswer};
ghost use Rattle.hx_ports.specs.Pieces.{WriteCause};
ghost use Rattle.hx_core.specs.Refinement.{ClusterView};
ghost use Rattle.hx_script.specs.Lines.{line_of_text, asking, is_asking};
ghost use Rattle.hx_script.specs.Inside.{IsIdle, IsServedOrder, IsUnread};
ghost use Rattle.hx_script.specs.Running.{Does, Cuts, IsSaid, SaysAnswer, Serves};

use crate::answer_line::{fixed_line, no_memory, push_line};
use crate::line::{Unread, read_line};
use crate::order::Order;
use crate::serving::{check, drop_hand, finish, settle, take, take_key};
use crate::turns::say_lost_take;
use hx_api::RequestReader;
use hx_core::Cluster;
use hx_model::{Answer, Ask, Refusal};
use hx_object::NoMemory;
use hx_ports::{Keeper, Sink, Unwritten, empty, write_all};
use std::alloc::Global;

/// Answers lines. What reading and writing them takes is kept from one line to the next.
pub struct Responder {
    alloc: Global,
    reader: RequestReader,
    /// The line of an answer while it is written. It is empty between two lines.
    line: String,
}

impl Drop for Responder {
    fn drop(self) {
        let Responder {
            alloc: _,
            reader: _,
            line: _,
        } = self;
    }
}

impl Responder {
    pub fn new(alloc: Global) -> Responder {
        Responder {
            alloc,
            reader: RequestReader::new(alloc),
            line: String::new(alloc),
        }
    }

    /// Answers the line of a part between line feeds, where it asks something.
    pub fn answer_part<W: Sink, K: Keeper>(
        &mut self,
        cluster: &mut Cluster<K>,
        sink: &mut W,
        part: &[u8],
    ) -> Result<(), Unwritten>
        requires { IsIdle cluster.old }
        ensures does { OnOk result (Does (asking part.now) cluster.old cluster.new (W.shown sink.old).written (W.shown sink.new).written) }
        ensures cut { OnErr result (Cuts (asking part.now) cluster.old cluster.new (W.shown sink.old).written (W.shown sink.new).written) }
        ensures cause { WriteCause (W.shown sink.old) (W.shown sink.new) result }
        ensures idle { IsIdle cluster.new }
    {
        let text = without_return(part);
        if !is_asking(text) {
            return Ok(());
        }
        self.answer_one(cluster, sink, text)
    }

    /// Answers one line.
    fn answer_one<W: Sink, K: Keeper>(
        &mut self,
        cluster: &mut Cluster<K>,
        sink: &mut W,
        text: &[u8],
    ) -> Result<(), Unwritten>
        requires { IsIdle cluster.old }
        ensures does { OnOk result (Does (line_of_text text.now ∷ []) cluster.old cluster.new (W.shown sink.old).written (W.shown sink.new).written) }
        ensures cut { OnErr result (Cuts (line_of_text text.now ∷ []) cluster.old cluster.new (W.shown sink.old).written (W.shown sink.new).written) }
        ensures cause { WriteCause (W.shown sink.old) (W.shown sink.new) result }
        ensures idle { IsIdle cluster.new }
    {
        match read_line(&mut self.reader, self.alloc, text) {
            Err(unread) => self.refuse(sink, unread),
            Ok(order) => self.serve(cluster, sink, order),
        }
    }

    /// Answers a line that orders nothing.
    fn refuse<W: Sink>(&mut self, sink: &mut W, unread: Unread) -> Result<(), Unwritten>
        ensures { (reading : Result Order Refusal) (cluster : ClusterView) → IsUnread reading unread → Serves reading cluster cluster (W.shown sink.old) (W.shown sink.new) result }
    {
        match unread {
            Unread::Refused(refusal) => {
                let answer = Answer::Refused(refusal);
                let said = self.say(sink, &answer);
                drop(answer);
                said
            }
            Unread::LostTake { worker } => say_lost_take(&mut self.line, sink, worker),
        }
    }

    /// Serves what a line orders.
    fn serve<W: Sink, K: Keeper>(
        &mut self,
        cluster: &mut Cluster<K>,
        sink: &mut W,
        order: Order,
    ) -> Result<(), Unwritten>
        requires served { IsServedOrder order }
        requires idle { IsIdle cluster.old }
        ensures serves { Serves (Ok order) cluster.old cluster.new (W.shown sink.old) (W.shown sink.new) result }
        ensures idle { IsIdle cluster.new }
    {
        match order {
            Order::Ask(ask) => self.request(cluster, sink, ask),
            Order::Take { worker, key: None } => take(&mut self.line, cluster, sink, worker),
            Order::Take {
                worker,
                key: Some(key),
            } => take_key(&mut self.line, cluster, sink, worker, key),
            Order::Finish { worker } => finish(&mut self.line, cluster, sink, worker),
            Order::Drop { worker } => drop_hand(&mut self.line, cluster, sink, worker),
            Order::Settle { turns } => settle(&mut self.line, cluster, sink, turns),
            Order::Check => check(&mut self.line, cluster, sink),
        }
    }

    /// Makes one request, and writes the line of its answer.
    fn request<W: Sink, K: Keeper>(
        &mut self,
        cluster: &mut Cluster<K>,
        sink: &mut W,
        ask: Ask,
    ) -> Result<(), Unwritten>
        requires served { IsServedAsk ask }
        requires idle { IsIdle cluster.old }
        ensures serves { Serves (Ok (Order.Ask ask)) cluster.old cluster.new (W.shown sink.old) (W.shown sink.new) result }
        ensures idle { IsIdle cluster.new }
    {
        let answer = cluster.request(ask);
        let said = self.say(sink, &answer);
        drop(answer);
        said
    }

    /// Writes the line of an answer or, where it finds no memory, the one for want of memory.
    fn say<W: Sink>(&mut self, sink: &mut W, answer: &Answer) -> Result<(), Unwritten>
        requires { IsLegalAnswer answer.now }
        ensures { SaysAnswer answer.now (W.shown sink.old) (W.shown sink.new) result }
    {
        if let Answer::Refused(refusal) = answer {
            if let Some(line) = fixed_line(refusal) {
                return write_all(sink, line.as_bytes());
            }
        }
        let line = made_line(&mut self.line, answer);
        let said = write_all(sink, line.as_bytes());
        empty(&mut self.line);
        said
    }
}

/// The line of an answer, which is laid into the buffer, or the one for want of memory.
fn made_line<'a>(buffer: &'a mut String, answer: &Answer) -> &'a str
    requires legal { IsLegalAnswer answer.now }
    requires unfixed { answer.now ≢ Answer.Refused Refusal.StoreFailed }
    ensures { IsSaid answer.now result.now }
{
    buffer.clear();
    match push_line(buffer, answer) {
        Ok(()) => buffer.as_str(),
        Err(NoMemory) => no_memory(),
    }
}

/// The line without the carriage return at its end.
fn without_return(line: &[u8]) -> &[u8]
    ensures { result.now ≡ strip_carriage_return line.now }
{
    if let Some(13) = line.last().copied() {
        &line[..line.len() - 1]
    } else {
        line
    }
}

/// Whether a line is answered: an empty one and a comment aren't.
fn is_asking(line: &[u8]) -> bool
    ensures { result ≡ is_asking line.now }
{
    match line {
        [] => false,
        [byte, ..] => *byte != b'#',
    }
}
