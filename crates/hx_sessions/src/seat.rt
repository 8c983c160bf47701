// A seat that answers messages.
ghost use Rattle.std.specs.Prelude.{◌≡◌};
ghost use Rattle.hx_http.specs.Searches.{message_seen};
ghost use Rattle.hx_model.specs.Serving.{IsLegalAnswer};
ghost use Rattle.hx_serve.specs.Exchanges.{reading_of};
ghost use Rattle.hx_shared.specs.Seats.{HasHistory};
ghost use Rattle.hx_shared.specs.Working.{HasWorked};
ghost use Rattle.hx_turn.specs.Passes.{IsOutside};
ghost use Rattle.hx_sessions.specs.Inside.{IsCalled};

use crate::bell::Bell;
use hx_api::RequestReader;
use hx_http::{Message, Method};
use hx_link::Service;
use hx_model::Answer;
use hx_ports::Keeper;
use hx_serve::reply_to;
use hx_shared::{OpenGate, Seat, Shared};
use std::alloc::Global;
use std::sync::Wait;

/// A seat at a shared cluster that answers messages of HTTP. What reading them and writing bodies takes is kept from one message, and from one link, to the next.
///
/// Contracts see of it its seat.
pub struct SeatService<'a, R: Wait, K: Keeper> {
    rt: &'a R,
    shared: &'a Shared<K>,
    /// Is rung where a request wrote.
    bell: &'a Bell,
    pub(crate) seat: Seat<K>,
    reader: RequestReader,
    /// The body of a reply while it is written. It is empty between two messages.
    body: String,
    ghost own: { seat.table_id ≡ shared.now },
    ghost outside: { IsOutside seat.me },
}

impl<'a, R: Wait, K: Keeper> SeatService<'a, R, K> {
    /// It takes no memory.
    pub fn new(
        rt: &'a R,
        alloc: Global,
        shared: &'a Shared<K>,
        bell: &'a Bell,
        seat: Seat<K>,
    ) -> SeatService<'a, R, K>
        requires own { seat.table_id ≡ shared.now }
        requires outside { IsOutside seat.me }
        ensures { result.seat ≡ seat }
    {
        SeatService {
            rt,
            shared,
            bell,
            seat,
            reader: RequestReader::new(alloc),
            body: String::new(alloc),
        }
    }

    /// The seat, which answers no more messages.
    pub fn into_seat(self) -> Seat<K>
        ensures same { result ≡ self.entry.seat }
        ensures outside { IsOutside result.me }
    {
        let SeatService {
            rt: _,
            shared: _,
            bell: _,
            seat,
            reader,
            body,
        } = self;
        drop(reader);
        drop(body);
        seat
    }

    /// So many turns of a worker over the same seat. It answers whether one of them got on.
    pub fn work(&mut self, worker: u32, turns: u64) -> bool
        ensures worked { HasWorked worker turns result self.old.seat.me.0 self.new.seat.me.0 }
        ensures own { self.new.seat.table_id ≡ self.old.seat.table_id }
        ensures legal { HasHistory self.old.seat.me.0 → HasHistory self.new.seat.me.0 }
    {
        let worked = self
            .shared
            .work(self.rt, &mut self.seat, worker, &OpenGate, turns);
        worked.got_on
    }

    /// What the cluster answers a message.
    fn call(&mut self, message: &Message<'_>) -> Answer
        ensures called { IsCalled (reading_of (message_seen message.now)) self.old.seat.me.0 result self.new.seat.me.0 }
        ensures own { self.new.seat.table_id ≡ self.old.seat.table_id }
        ensures legal { IsLegalAnswer result }
    {
        match self
            .reader
            .read_ask(message.method, message.target, message.body)
        {
            Ok(ask) => self.shared.request(self.rt, &mut self.seat, ask),
            Err(refusal) => Answer::Refused(refusal),
        }
    }

    /// Rings where a request wrote.
    fn ring(&self, method: Method, answer: &Answer) {
        if method == Method::Get {
            return;
        }
        match answer {
            Answer::Refused(_) => {}
            _ => self.bell.ring(),
        }
    }
}

impl<'a, R: Wait, K: Keeper> Service for SeatService<'a, R, K> {
    ghost use Rattle.std.specs.Prelude.{◌≡◌};
    ghost use Rattle.hx_sessions.specs.Seats.{HasAsked};

    ghost does = { λ old exchanges new. HasAsked old.seat.me.0 exchanges new.seat.me.0 × (new.seat.table_id ≡ old.seat.table_id) };

    fn answer<'b>(&mut self, room: &'b mut String, message: &Message<'_>) -> &'b str {
        let answer = self.call(message);
        self.ring(message.method, &answer);
        let text = reply_to(room, &mut self.body, &answer, message.last);
        drop(answer);
        text
    }

    fn law_of_none() {}

    fn law_of_refused() {}

    fn law_of_more() {}
}
