// What answers messages.
ghost use Rattle.std.specs.Prelude.{List, [], ◌∷◌, ◌++◌};
ghost use Rattle.hx_http.specs.Replies.{fault_text};
ghost use Rattle.hx_http.specs.Searches.{message_seen};
ghost use Rattle.hx_http.specs.Streams.{Question, Asked, Rejected};
ghost use Rattle.hx_http.specs.declared.fault.HeadFault.{HeadFault as Fault};
ghost use Rattle.hx_link.specs.Exchanges.{Exchange};

use hx_http::Message;

/// Answers messages. `does` says which exchanges lead from one state of it to another; what they mean is the service's own.
pub trait Service {
    ghost does: { Self → List (Exchange Question) → Self → Type 0 };

    /// Answers a message, and gives the text of the whole reply, head and body. The text is laid into `room`, or is a fixed one. What `room` holds before doesn't matter.
    fn answer<'a>(&mut self, room: &'a mut String, message: &Message<'_>) -> &'a str
        ensures { does self.old (record { question = Asked (message_seen message.now); text = result.now } ∷ []) self.new };

    /// A theorem, not to be called for its effect: where nothing is asked, nothing changes.
    fn law_of_none()
        ensures { (state : Self) → does state [] state };

    /// A theorem: a head that is refused is answered without the service.
    fn law_of_refused()
        ensures { (state : Self) (fault : Fault) → does state (record { question = Rejected fault; text = fault_text fault } ∷ []) state };

    /// A theorem: exchanges come one after the other.
    fn law_of_more()
        ensures { (a b c : Self) (first then : List (Exchange Question)) → does a first b → does b then c → does a (first ++ then) c };
}
