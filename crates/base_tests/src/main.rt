//! Tests of words, texts, files and sinks: what no clause says, and each call once.
#![tactic(auto)]

#[cfg(test)]
mod io_tests;
#[cfg(test)]
mod words_tests;

fn main(rt: HostRuntime) {}
