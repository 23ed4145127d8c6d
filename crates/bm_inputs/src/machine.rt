// The machine that a word names.
ghost use Rattle.std.specs.Prelude.{◌≡◌};
ghost use Rattle.bm_words.specs.Seen.{seen_machine};
ghost use Rattle.bm_course.specs.Seen.{files_seen};
ghost use Rattle.bm_course.specs.Ends.{Comes};
ghost use Rattle.bm_inputs.specs.Machines.{file_course, machine_course};
ghost use Rattle.bm_inputs.specs.Standing.{IsMachine};

use crate::machine_lines::machine_refusal;
use bm_base::{MOST_MACHINE_BYTES, Spec};
use bm_course::{Stop, read_limited};
use bm_io::Files;
use bm_words::MachineWord;
use machine_file::read_machine;
use std::alloc::Global;

/// The machine that a file describes.
fn machine_of_file<'a, F: Files>(
    alloc: Global,
    files: &mut F,
    name: &'a str,
) -> Result<Spec, Stop<'a>>
    ensures { Comes IsMachine (files_seen F.held F.asked F.faults files.old) (files_seen F.held F.asked F.faults files.new)
        (file_course name.now) result }
{
    let bytes = read_limited(alloc, files, name, MOST_MACHINE_BYTES)?;
    match read_machine(alloc, &bytes) {
        Ok(spec) => Ok(spec),
        Err(fault) => match machine_refusal(fault) {
            Some(refusal) => Err(Stop::Refused(refusal)),
            None => Err(Stop::Memory),
        },
    }
}

/// The machine that a word names.
pub fn named_machine<'a, F: Files>(
    alloc: Global,
    files: &mut F,
    machine: MachineWord<'a>,
) -> Result<Spec, Stop<'a>>
    ensures { Comes IsMachine (files_seen F.held F.asked F.faults files.old) (files_seen F.held F.asked F.faults files.new)
        (machine_course (seen_machine machine.entry)) result }
{
    match machine {
        MachineWord::Standard => Ok(Spec::standard()),
        MachineWord::File { name } => machine_of_file(alloc, files, name),
    }
}
