//! The tests of the libraries, over what they make public: outside vectors, printed bytes, what a call gives with ample memory, and plain programs to compare with.
//!
//! What a contract says isn't tested again. What a whole run answers stands in the table of requests that `hnc` is run on.
#![tactic(auto)]

#[cfg(test)]
mod beside;
#[cfg(test)]
mod bodies;
#[cfg(test)]
mod charges;
#[cfg(test)]
mod counters;
#[cfg(test)]
mod doors;
#[cfg(test)]
mod forests;
#[cfg(test)]
mod graphs;
#[cfg(test)]
mod links;
#[cfg(test)]
mod made;
#[cfg(test)]
mod memory;
#[cfg(test)]
mod plans;
#[cfg(test)]
mod ports;
#[cfg(test)]
mod quantities;
#[cfg(test)]
mod readings;
#[cfg(test)]
mod requests;
#[cfg(test)]
mod scripts;
#[cfg(test)]
mod seats;
#[cfg(test)]
mod selectors;
#[cfg(test)]
mod sessions;
#[cfg(test)]
mod stores;
#[cfg(test)]
mod team;
#[cfg(test)]
mod values;
#[cfg(test)]
mod watching;
