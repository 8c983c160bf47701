//! The cluster: objects in memory over a keeper of their rows.
//!
//! Each call makes one entry of the machine that `hx_model` defines: what it answers, and what is stored afterwards, is what the machine says.
//! Requests and workers choose writes, and each write goes one way: it is prepared, put to the keeper, and then made. It marks the keys of reconcilers' work that it touches, which workers take, plan and finish.
#![tactic(auto)]

mod briefs;
mod cluster;
mod commit;
mod damage;
mod finish;
mod law;
mod objects;
mod rows;
mod settle;
mod start;
mod touched;
mod turns;
mod wanted;
mod working;

pub use cluster::{Cluster, Unstarted};
pub use damage::Damage;
pub use law::law_of_rows;
pub use rows::SCHEMA;
pub use settle::end_of;
pub use start::StartFault;
pub use turns::{Settle, Take, Turn, Turned};
