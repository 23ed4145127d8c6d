//! A course of files: what a command reads, what it refuses, and how a call of it goes.
//!
//! `specs/Course.antt` has courses, `Goes` every way a call may go, `Lines` the lines and statuses of refusals,
//! `Clauses` what follows for each status and from what the held files lead to.
#![tactic(auto)]

mod files;
mod product;
mod refusal;
mod reporting;
pub mod status;

pub use files::{read_file, read_limited};
pub use product::{send_lines, write_product};
pub use refusal::{Refusal, Stop};
pub use reporting::report;
