//! Messages of HTTP/1.1: the first request of a stream of bytes, and the text of a reply.
//!
//! What a head is and which headers count is RFC 9112, narrowed to what this service takes: four methods, no encoding of a transfer, and limits on heads, targets and bodies.
#![tactic(auto)]

mod fault;
mod fixed;
mod head;
mod law;
mod message;
mod method;
mod next;
mod reply;
mod search;

pub use fault::HeadFault;
pub use fixed::{no_memory_reply, store_failed_reply};
pub use law::{law_of_heads, law_of_pieces, law_of_streams};
pub use message::{Framing, Message, Next};
pub use method::Method;
pub use next::next_request;
pub use reply::write_reply;
pub use search::{LineSearch, Search};
