//! The program: the top call over the files and streams of the system.
#![tactic(auto)]

use bm_course::{Stop, report};
use bm_io::{RealFiles, RealSink};
use bmimd_top::bmimd;
use std::env::Env;
use std::io::ErrorKind;
use std::process::ExitCode;
use std::{env, io};

/// The words after the program's name.
fn words(rt: &(impl Env + AllocGlobal)) -> io::Result<Vec<String>> {
    let mut words = Vec::new(rt.alloc());
    for word in env::args(rt)?.skip(1) {
        words.push(word)?;
    }
    Ok(words)
}

/// Runs the top call. Words that are no text count as no words, so they are a usage fault.
fn main(rt: HostRuntime) -> ExitCode {
    let alloc = rt.alloc();
    let mut files = RealFiles::new(&rt);
    let mut out = RealSink::new(rt.stdout());
    let mut err = RealSink::new(rt.stderr());
    let words = match words(&rt) {
        Ok(words) => words,
        Err(fault) if fault.kind() == ErrorKind::OutOfMemory => {
            return ExitCode::from(report(alloc, &mut err, &Stop::Memory));
        }
        Err(_) => Vec::new(alloc),
    };
    let status = bmimd(alloc, &words, &mut files, &mut out, &mut err);
    ExitCode::from(status.code)
}
