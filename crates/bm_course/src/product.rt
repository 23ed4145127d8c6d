// A file and a text behind it are written.
ghost use Rattle.std.specs.Prelude.{◌≡◌, ◌≤◌, [], Some, map};
ghost use Rattle.bm_io.specs.declared.sinks.SinkFault.TheVariants.{Failed};
ghost use Rattle.bm_io.specs.Causes.{HasCause};
ghost use Rattle.bm_io.specs.Sink.{Sent};
ghost use Rattle.bm_course.specs.Seen.{files_seen, sink_seen};
ghost use Rattle.bm_course.specs.declared.status.TheConstants.{ENDED};
ghost use Rattle.bm_course.specs.Ends.{EndsWriting};

use crate::{Stop, status};
use bm_io::{FileFault, Files, Sink, SinkFault};

/// Sends the lines in order, one write each, up to the first that is refused.
pub fn send_lines<S: Sink>(sink: &mut S, lines: &[&[u8]]) -> Result<(), SinkFault>
    ensures sent { Sent (S.taken sink.old) (S.taken sink.new) (map (λ line. line.now) lines.now) result }
    ensures cause { HasCause Failed (S.faults sink.old) (S.faults sink.new) result }
{
    for line in lines {
        sink.write(line)?;
    }
    Ok(())
}

/// Writes a file, whole, and then lines, one write each; it answers that it has ended.
///
/// Where the file cannot be written, it is as it was, and no line is written.
pub fn write_product<'a, F: Files, O: Sink>(
    files: &mut F,
    out: &mut O,
    name: &'a str,
    bytes: &[u8],
    lines: &[&[u8]],
) -> Result<u8, Stop<'a>>
    ensures ends { EndsWriting (files_seen F.held F.asked F.faults files.old) (files_seen F.held F.asked F.faults files.new)
        (sink_seen O.taken O.faults out.old) (sink_seen O.taken O.faults out.new) []
        (record {
          file = Some (record { name = name.now; bytes = bytes.now });
          text = record { status = ENDED; lines = map (λ line. line.now) lines.now };
        }) result }
    ensures later { F.faults files.old ≤ F.faults files.new }
    ensures out_later { O.faults out.old ≤ O.faults out.new }
{
    match files.write(name, bytes) {
        Ok(()) => {
            send_lines(out, lines)?;
            Ok(status::ENDED)
        }
        Err(FileFault::Failed) => Err(Stop::UnwrittenFile { name }),
        Err(FileFault::Memory) => Err(Stop::Memory),
    }
}
