//! Requests over HTTP read as asks, and answers written as replies.
//!
//! Paths, methods and statuses are those of the Kubernetes API.
#![tactic(auto)]

mod body;
mod fields;
mod parts;
mod query;
mod reply;
mod request;
mod resource_path;
mod routes;
mod served;

pub use hx_http::Method;
pub use reply::{Reply, push_body, status_of, write_answer};
pub use request::RequestReader;
