//! Tests of the layers between the source and the commands, where no command shows what they show.
#![tactic(auto)]

#[cfg(test)]
mod bounds_tests;
#[cfg(test)]
mod fixtures;
#[cfg(test)]
mod line_tests;
#[cfg(test)]
mod reduction_tests;
#[cfg(test)]
mod schedule_tests;
#[cfg(test)]
mod unit_tests;

fn main(rt: HostRuntime) {}
