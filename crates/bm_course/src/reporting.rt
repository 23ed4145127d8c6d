// A refusal is reported.
ghost use Rattle.std.specs.Prelude.{◌≡◌, ◌++◌, ◌≤◌, ◌<◌, codes, decimal, length, Decides, IfOk};
ghost use Rattle.bm_course.specs.Seen.{sink_seen};
ghost use Rattle.bm_course.specs.Goes.{Reported, ReportedOrStarved, WritesOnce};
ghost use Rattle.bm_course.specs.Refusals.{refused_as, stopped_as};

use crate::{Refusal, Stop, status};
use bm_base::Piece;
use bm_io::{Sink, SinkFault};
use std::alloc::{AllocError, Global};

/// Sends a line, in one write, and answers its status, or that of the write that was refused.
fn send_line<E: Sink>(err: &mut E, code: u8, line: &[u8]) -> u8
    ensures told { Reported (sink_seen E.taken E.faults err.old) (sink_seen E.taken E.faults err.new)
        (record { status = code; line = line.now }) result }
    ensures once { WritesOnce (E.taken err.old) (E.taken err.new) }
{
    match err.write(line) {
        Ok(()) => code,
        Err(SinkFault::Failed) => status::UNWRITTEN,
        Err(SinkFault::Memory) => status::MEMORY,
    }
}

/// A line of three parts.
fn joined(alloc: Global, before: &[u8], part: &[u8], after: &[u8]) -> Result<Vec<u8>, AllocError>
    ensures { IfOk result (λ line. line.items ≡ before.now ++ part.now ++ after.now) }
{
    let mut line = Vec::from_slice(alloc, before)?;
    line.extend_from_slice(part)?;
    line.extend_from_slice(after)?;
    Ok(line)
}

/// The greatest length of a line that takes no memory, in bytes.
pub const SHORT_LINE: usize = 512;

/// Whether a line of three parts is short.
fn is_short(before: &[u8], part: &[u8], after: &[u8]) -> bool
    ensures { Decides result (length (before.now ++ part.now ++ after.now) ≤ SHORT_LINE) }
{
    before.len() <= SHORT_LINE
        && part.len() <= SHORT_LINE - before.len()
        && after.len() <= SHORT_LINE - before.len() - part.len()
}

/// A short line of three parts. It takes no memory.
fn short(before: &[u8], part: &[u8], after: &[u8]) -> Piece
    requires { length (before.now ++ part.now ++ after.now) ≤ SHORT_LINE }
    ensures { result ≡ before.now ++ part.now ++ after.now }
{
    let mut line = Piece::new();
    line.text(before);
    line.text(part);
    line.text(after);
    line
}

/// Sends a long line, which is put together in memory first, or that of want of memory.
fn send_long<E: Sink>(
    alloc: Global,
    err: &mut E,
    code: u8,
    before: &[u8],
    part: &[u8],
    after: &[u8],
) -> u8
    requires { SHORT_LINE < length (before.now ++ part.now ++ after.now) }
    ensures told { ReportedOrStarved (sink_seen E.taken E.faults err.old) (sink_seen E.taken E.faults err.new)
        (record { status = code; line = before.now ++ part.now ++ after.now }) result }
    ensures once { WritesOnce (E.taken err.old) (E.taken err.new) }
{
    match joined(alloc, before, part, after) {
        Ok(line) => send_line(err, code, &line),
        Err(_) => send_line(err, status::MEMORY, b"error: no memory\n"),
    }
}

/// Sends a line that quotes a part, as it is. A short one takes no memory; of a long one want of memory is told in its place.
fn send_quoting<E: Sink>(
    alloc: Global,
    err: &mut E,
    code: u8,
    before: &[u8],
    part: &[u8],
    after: &[u8],
) -> u8
    ensures told { ReportedOrStarved (sink_seen E.taken E.faults err.old) (sink_seen E.taken E.faults err.new)
        (record { status = code; line = before.now ++ part.now ++ after.now }) result }
    ensures once { WritesOnce (E.taken err.old) (E.taken err.new) }
{
    if is_short(before, part, after) {
        send_line(err, code, short(before, part, after).bytes())
    } else {
        send_long(alloc, err, code, before, part, after)
    }
}

/// How long a file may be.
fn limit_text(most: usize) -> Piece
    ensures { result ≡ codes " is longer than " ++ decimal most ++ codes " bytes\n" }
{
    let mut piece = Piece::new();
    piece.text(b" is longer than ");
    piece.count(most as u64);
    piece.text(b" bytes\n");
    piece
}

fn report_refusal<E: Sink>(alloc: Global, err: &mut E, refusal: &Refusal) -> u8
    ensures told { ReportedOrStarved (sink_seen E.taken E.faults err.old) (sink_seen E.taken E.faults err.new) (refused_as refusal.now) result }
    ensures once { WritesOnce (E.taken err.old) (E.taken err.new) }
{
    match refusal {
        Refusal::Usage => send_line(err, status::USAGE, b"error: usage\n"),
        Refusal::TooLong { name, most, .. } => send_quoting(
            alloc,
            err,
            status::LIMIT,
            b"error 34: ",
            name.as_bytes(),
            limit_text(*most).bytes(),
        ),
        Refusal::Plain { status: code, line } => send_line(err, *code, line.bytes()),
        Refusal::Quoting {
            status: code,
            before,
            part,
            after,
        } => send_quoting(alloc, err, *code, before.bytes(), part, after.bytes()),
    }
}

/// Sends the line of what stopped a command, in one write, and answers the status.
///
/// A line of over 512 bytes is put together in memory first; where there is none, want of memory is told in its place.
pub fn report<E: Sink>(alloc: Global, err: &mut E, stop: &Stop) -> u8
    ensures told { ReportedOrStarved (sink_seen E.taken E.faults err.old) (sink_seen E.taken E.faults err.new) (stopped_as stop.now) result }
    ensures once { WritesOnce (E.taken err.old) (E.taken err.new) }
{
    match stop {
        Stop::Refused(refusal) => report_refusal(alloc, err, refusal),
        Stop::Unread { name } => send_quoting(
            alloc,
            err,
            status::UNREAD,
            b"error: cannot read ",
            name.as_bytes(),
            b"\n",
        ),
        Stop::UnwrittenFile { name } => send_quoting(
            alloc,
            err,
            status::UNWRITTEN,
            b"error: cannot write ",
            name.as_bytes(),
            b"\n",
        ),
        Stop::Unwritten => send_line(err, status::UNWRITTEN, b"error: cannot write the output\n"),
        Stop::Memory => send_line(err, status::MEMORY, b"error: no memory\n"),
    }
}
