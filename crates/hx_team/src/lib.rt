//! A door that is served in threads: sessions beside one another, and workers that write what reconcilers want meanwhile.
#![tactic(auto)]

mod session;
mod signals;
mod team;
mod threads;
mod worker;

pub use threads::{ServePlan, Served, serve};
