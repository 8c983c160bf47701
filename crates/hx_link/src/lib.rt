//! Links of HTTP: what is read from a source is cut into messages, each is answered by a service, and the replies are written to a sink.
//!
//! The engine knows neither what a message asks nor what a service is: contracts see of a service the relation that it makes exchanges by.
#![tactic(auto)]

mod buffers;
mod feeding;
mod link;
mod service;

pub use link::{LinkEnd, serve_link};
pub use service::Service;
