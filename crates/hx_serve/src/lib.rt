//! A cluster behind HTTP: messages are read as asks, made of the cluster and answered.
#![tactic(auto)]

mod law;
mod links;
mod reply;
mod service;

pub use law::law_of_visits;
pub use links::{Notices, serve};
pub use reply::reply_to;
pub use service::ClusterService;
