//! Runs calls over files and sinks in memory, with planned faults, as `plan.txt` has them; `step` says what a line is.
//!
//! A call prints its words, what the output took, what the errors took, and the status with the counts of writes.
#![tactic(auto)]

use bm_io::{MemFiles, MemSink};
use bmimd_top::bmimd;
use std::alloc::{AllocError, Global};
use std::io::Write;
use std::{fs, io};

/// The files of the calls, and the sinks of the next one.
#[derive(Drop)]
struct Desk {
    files: MemFiles,
    out: MemSink,
    err: MemSink,
}

fn new_desk(alloc: Global) -> Desk {
    Desk {
        files: MemFiles::new(alloc),
        out: MemSink::new(alloc),
        err: MemSink::new(alloc),
    }
}

/// A line's first word and what stands behind it.
fn cut(line: &str) -> (&str, &str) {
    line.split_once(' ').unwrap_or((line, ""))
}

/// A number, 0 where there is none.
fn number(text: &str) -> u32 {
    text.parse().unwrap_or(0)
}

/// The words of a call, between single spaces.
fn words_of(alloc: Global, line: &str) -> Result<Vec<String>, AllocError> {
    let mut words = Vec::new(alloc);
    for word in line.split(' ') {
        words.push(String::from_str(alloc, word)?)?;
    }
    Ok(words)
}

/// Holds a file of the text, so many times.
fn hold(alloc: Global, files: &mut MemFiles, count: u32, named: &str) -> Result<(), AllocError> {
    let (name, text) = cut(named);
    let mut bytes = Vec::new(alloc);
    for _ in 0..count {
        for (i, line) in text.split("\\n").enumerate() {
            if i > 0 {
                bytes.push(b'\n')?;
            }
            bytes.extend_from_slice(line.as_bytes())?;
        }
    }
    files.hold(name, &bytes)
}

/// Plans a write that fails after some bytes.
fn plan(sink: &mut MemSink, write: &str) -> Result<(), AllocError> {
    let (call, taken) = cut(write);
    sink.fail(number(call), number(taken) as usize)
}

/// The call with these words, and what it wrote.
fn call(rt: &HostRuntime, desk: &mut Desk, words: &str) -> io::Result<()> {
    println!(rt; "$ bmimd {words}")?;
    let list = words_of(rt.alloc(), words)?;
    let status = bmimd(
        rt.alloc(),
        &list,
        &mut desk.files,
        &mut desk.out,
        &mut desk.err,
    );
    rt.stdout().write_all(desk.out.taken())?;
    rt.stdout().write_all(desk.err.taken())?;
    println!(rt;
        "status {} writes {} {}",
        status.code,
        desk.out.writes(),
        desk.err.writes()
    )
}

/// What one line of the plan says is done. A line is one of these:
///
///     hold NAME TEXT           holds a file; `\n` in the text stands for the end of a line
///     many COUNT NAME TEXT     holds a file of the text, so many times
///     files N                  call N of the files, counted from the last `new`, fails
///     out N K                  write N of the next call's output fails after K bytes
///     err N K                  write N of the next call's errors fails after K bytes
///     starve out N             write N of the next call's output finds no memory; so for err
///     call WORD ..             the call with these words
///     shown NAME               what a file holds
///     new                      from here on no file is held
fn step(rt: &HostRuntime, desk: &mut Desk, line: &str) -> io::Result<()> {
    let alloc = rt.alloc();
    let (word, rest) = cut(line);
    let (first, behind) = cut(rest);
    match word {
        "hold" => hold(alloc, &mut desk.files, 1, rest)?,
        "many" => hold(alloc, &mut desk.files, number(first), behind)?,
        "files" => desk.files.fail(number(rest))?,
        "out" => plan(&mut desk.out, rest)?,
        "err" => plan(&mut desk.err, rest)?,
        "starve" if first == "out" => desk.out.refuse(number(behind))?,
        "starve" => desk.err.refuse(number(behind))?,
        "shown" => {
            rt.stdout().write_all(desk.files.held(rest).unwrap_or(b""))?;
            println!(rt)?;
        }
        "call" => {
            call(rt, desk, rest)?;
            drop(std::mem::replace(&mut desk.out, MemSink::new(alloc)));
            drop(std::mem::replace(&mut desk.err, MemSink::new(alloc)));
        }
        _ => drop(std::mem::replace(&mut desk.files, MemFiles::new(alloc))),
    }
    Ok(())
}

fn main(rt: HostRuntime) -> io::Result<()> {
    let mut desk = new_desk(rt.alloc());
    let plan = fs::read_to_string(&rt, "plan.txt")?;
    for line in plan.lines() {
        step(&rt, &mut desk, line)?;
    }
    Ok(())
}
