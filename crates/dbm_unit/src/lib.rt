//! The dynamic barrier unit (DBM): each mask whose members all wait can fire, whatever its place in
//! the queue.
//!
//! After the dynamic machine of O'Keefe and Dietz, "Hardware Barrier Synchronization: Dynamic Barrier
//! MIMD (DBM)", ICPP 1990, in outline. `unit_law` has the law that it keeps.
#![tactic(auto)]

mod dbm;
mod lists;
mod ready;

pub use dbm::Dbm;
