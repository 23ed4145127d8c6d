//! How long each instruction takes: the trait of timings, and its law.
#![tactic(auto)]

mod picking;
mod timing;

pub use picking::{duration_by, offsets_pick_all_durations};
pub use timing::Timing;
