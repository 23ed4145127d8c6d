// The command `compile`: reads a source and a machine, and writes what they are compiled to.
ghost use Rattle.std.specs.Prelude.{◌≡◌, ◌≤◌, ◌<◌, [], Some, slice_get};
ghost use Rattle.bm_words.specs.Seen.{seen_machine};
ghost use Rattle.bm_report.specs.Summary.{summary_lines};
ghost use Rattle.bm_course.specs.declared.status.TheConstants.{ENDED};
ghost use Rattle.bm_course.specs.Seen.{files_seen, sink_seen};
ghost use Rattle.bm_course.specs.Ends.{Comes, EndsWriting, Concludes};
ghost use Rattle.bmimd_top.specs.Compiling.{IsWritten, made_course};
ghost use Rattle.bmimd_top.specs.Command.{compile_course};

use bm_base::Piece;
use bm_course::{Stop, write_product};
use bm_inputs::{named_machine, source_of};
use bm_io::{Files, Sink};
use bm_report::{Summary, summary_line};
use bm_words::MachineWord;
use compiled_image::compile;
use std::alloc::Global;
use stream_file::write_image;

/// What a program came to: the text of its image, and its summary.
#[derive(Drop)]
pub(crate) struct Written {
    bytes: Vec<u8>,
    summary: Summary,
}

/// The text of what the program of a source file is compiled to on a machine, and its summary.
fn compiled_text<'a, F: Files>(
    alloc: Global,
    files: &mut F,
    program: &'a str,
    machine: MachineWord<'a>,
) -> Result<Written, Stop<'a>>
    ensures { Comes IsWritten (files_seen F.held F.asked F.faults files.old) (files_seen F.held F.asked F.faults files.new)
        (made_course program.now (seen_machine machine.entry)) result }
{
    let source = source_of(alloc, files, program)?;
    let spec = named_machine(alloc, files, machine)?;
    let compiled = compile(alloc, &source, spec)?;
    let bytes = write_image(alloc, &compiled.image)?;
    Ok(Written {
        bytes,
        summary: compiled.summary,
    })
}

/// A line of a summary.
pub(crate) fn line_of(summary: &Summary, row: u8) -> Piece
    requires { row < 5 }
    ensures { slice_get (summary_lines summary.now) row ≡ Some result }
{
    let mut piece = Piece::new();
    summary_line(summary, row, &mut piece);
    piece
}

/// Writes what a program came to: its image to a file, whole, and then the lines of its summary.
fn write_all<'a, F: Files, O: Sink>(
    files: &mut F,
    out: &mut O,
    name: &'a str,
    written: &Written,
) -> Result<u8, Stop<'a>>
    ensures ends { EndsWriting (files_seen F.held F.asked F.faults files.old) (files_seen F.held F.asked F.faults files.new)
        (sink_seen O.taken O.faults out.old) (sink_seen O.taken O.faults out.new) []
        (record {
          file = Some (record { name = name.now; bytes = written.now.bytes.items });
          text = record { status = ENDED; lines = summary_lines written.now.summary };
        }) result }
    ensures later { F.faults files.old ≤ F.faults files.new }
    ensures out_later { O.faults out.old ≤ O.faults out.new }
{
    let blocks = line_of(&written.summary, 0);
    let tuples = line_of(&written.summary, 1);
    let pairs = line_of(&written.summary, 2);
    let masks = line_of(&written.summary, 3);
    let estimate = line_of(&written.summary, 4);
    let lines = [
        blocks.bytes(),
        tuples.bytes(),
        pairs.bytes(),
        masks.bytes(),
        estimate.bytes(),
    ];
    write_product(files, out, name, &written.bytes, &lines)
}

/// Compiles the program of a source file for a machine, into a file.
pub(crate) fn compile_into<'a, F: Files, O: Sink>(
    alloc: Global,
    program: &'a str,
    machine: MachineWord<'a>,
    name: &'a str,
    files: &mut F,
    out: &mut O,
) -> Result<u8, Stop<'a>>
    ensures { Concludes (files_seen F.held F.asked F.faults files.old) (files_seen F.held F.asked F.faults files.new)
        (sink_seen O.taken O.faults out.old) (sink_seen O.taken O.faults out.new)
        (compile_course program.now (seen_machine machine.entry) name.now) result }
{
    let written = compiled_text(alloc, files, program, machine)?;
    write_all(files, out, name, &written)
}
