//! Runs examples: each line of `calls.txt` has the words of one call. Its words, what it writes, and its status are printed.
#![tactic(auto)]

use bm_io::{RealFiles, RealSink};
use bmimd_top::bmimd;
use std::alloc::{AllocError, Global};
use std::{fs, io};

/// The words of a line, between single spaces.
fn words_of(alloc: Global, line: &str) -> Result<Vec<String>, AllocError> {
    let mut words = Vec::new(alloc);
    for word in line.split(' ') {
        words.push(String::from_str(alloc, word)?)?;
    }
    Ok(words)
}

fn main(rt: HostRuntime) -> io::Result<()> {
    let alloc = rt.alloc();
    let mut files = RealFiles::new(&rt);
    let calls = fs::read_to_string(&rt, "calls.txt")?;
    for line in calls.lines() {
        println!(rt; "$ bmimd {line}")?;
        let words = words_of(alloc, line)?;
        let mut out = RealSink::new(rt.stdout());
        let mut err = RealSink::new(rt.stdout());
        let status = bmimd(alloc, &words, &mut files, &mut out, &mut err);
        println!(rt; "status {}", status.code)?;
    }
    Ok(())
}
