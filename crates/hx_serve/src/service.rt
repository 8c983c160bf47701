// A cluster that answers messages.
ghost use Rattle.std.specs.Prelude.{◌≡◌};
ghost use Rattle.hx_http.specs.Searches.{message_seen};
ghost use Rattle.hx_model.specs.Serving.{IsLegalAnswer};
ghost use Rattle.hx_script.specs.Inside.{IsIdle};
ghost use Rattle.hx_serve.specs.Exchanges.{HasSettled, reading_of};
ghost use Rattle.hx_serve.specs.Inside.{IsCalled};

use crate::reply::reply_to;
use hx_api::RequestReader;
use hx_core::{Cluster, Settle, Turned};
use hx_http::Message;
use hx_link::Service;
use hx_model::Answer;
use hx_ports::Keeper;
use std::alloc::Global;
use std::marker::Model;

/// A cluster that answers messages of HTTP. What reading them and writing bodies takes is kept from one message to the next.
///
/// Contracts see of it its cluster, in which worker 0 holds nothing.
pub struct ClusterService<K: Keeper> {
    cluster: Cluster<K>,
    reader: RequestReader,
    /// The body of a reply while it is written. It is empty between two messages.
    body: String,
    /// The turns of a settle while it goes on. It is empty between two.
    turns: Vec<Turned>,
}

impl<K: Keeper> Model for ClusterService<K> {
    ghost use Rattle.hx_core.specs.Refinement.{ClusterView, cluster_view_code};
    ghost use Rattle.hx_script.specs.Inside.{IsIdle};

    ghost Value = { ClusterView };

    ghost coded = { cluster_view_code };

    ghost view = { λ service. service.cluster };

    ghost invariant = { λ service. IsIdle service.cluster };
}

impl<K: Keeper> ClusterService<K> {
    /// It takes no memory.
    pub fn new(alloc: Global, cluster: Cluster<K>) -> ClusterService<K>
        requires { IsIdle cluster }
        ensures { result ≡ cluster }
    {
        ClusterService {
            cluster,
            reader: RequestReader::new(alloc),
            body: String::new(alloc),
            turns: Vec::new(alloc),
        }
    }

    /// The cluster, which answers no more messages.
    pub fn into_cluster(self) -> Cluster<K>
        ensures same { result ≡ self }
        ensures idle { IsIdle result }
    {
        let ClusterService {
            cluster,
            reader,
            body,
            turns,
        } = self;
        drop(reader);
        drop(body);
        drop(turns);
        cluster
    }

    /// Worker 0 takes, plans and finishes until no key waits, so many keys were taken, or a turn was lost.
    pub fn settle(&mut self, turns: u64) -> Settle
        ensures { HasSettled turns self.old self.new }
    {
        let end = self.cluster.settle(turns, &mut self.turns);
        self.turns.clear();
        end
    }

    /// What the cluster answers a message.
    fn call(&mut self, message: &Message<'_>) -> Answer
        ensures called { IsCalled (reading_of (message_seen message.now)) self.old result self.new }
        ensures legal { IsLegalAnswer result }
    {
        match self
            .reader
            .read_ask(message.method, message.target, message.body)
        {
            Ok(ask) => self.cluster.request(ask),
            Err(refusal) => Answer::Refused(refusal),
        }
    }
}

impl<K: Keeper> Service for ClusterService<K> {
    ghost use Rattle.hx_serve.specs.Exchanges.{HasAnswered};

    ghost does = { λ old exchanges new. HasAnswered old exchanges new };

    fn answer<'a>(&mut self, room: &'a mut String, message: &Message<'_>) -> &'a str {
        let answer = self.call(message);
        let text = reply_to(room, &mut self.body, &answer, message.last);
        drop(answer);
        text
    }

    fn law_of_none() {}

    fn law_of_refused() {}

    fn law_of_more() {}
}
