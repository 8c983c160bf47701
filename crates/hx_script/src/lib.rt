//! Scripts: lines of requests and of workers' turns that are read from a source, made of a cluster, and answered to a sink.
//!
//! Each line that isn't empty and doesn't begin with `#` is answered. A request has one line: the HTTP status, a space and the body. So has a worker's turn, and a settle has two for each of its turns and one for its end.
#![tactic(auto)]

mod answer_line;
mod line;
mod order;
mod responder;
mod script;
mod serving;
mod turns;
mod words;
mod worker;

pub use script::{RunEnd, run_script};
pub use turns::{push_key, push_settled};
