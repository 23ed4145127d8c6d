//! The static barrier unit (SBM): one queue of masks, of which only the head can fire.
//!
//! After the static machine of O'Keefe and Dietz, "Hardware Barrier Synchronization: Static Barrier
//! MIMD (SBM)", ICPP 1990, in outline. `unit_law` has the law that it keeps.
#![tactic(auto)]

mod sbm;

pub use sbm::Sbm;
