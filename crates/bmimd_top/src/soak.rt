// The command `soak`: writes the soak of a seed and a number of items. It reads no file.
ghost use Rattle.std.specs.Prelude.{◌≤◌};
ghost use Rattle.bm_course.specs.Seen.{FilesSeen, sink_seen};
ghost use Rattle.bm_course.specs.Ends.{Concludes};
ghost use Rattle.soak_text.specs.SoakCourse.{soak_course};

use bm_base::MOST_STATEMENTS;
use bm_course::Stop;
use bm_io::Sink;
use soak_text::write_soak;
use std::alloc::Global;

/// Makes a program of so many items from a number, and tells how its source and its runs stand.
pub(crate) fn soak<'a, O: Sink>(
    alloc: Global,
    seed: u64,
    statements: u32,
    out: &mut O,
) -> Result<u8, Stop<'a>>
    requires few { statements ≤ MOST_STATEMENTS }
    ensures { (files : FilesSeen) → Concludes files files (sink_seen O.taken O.faults out.old) (sink_seen O.taken O.faults out.new)
        (soak_course seed statements) result }
{
    Ok(write_soak(alloc, out, seed, statements)?)
}
