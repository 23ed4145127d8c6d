// The trace on a unit of a kind, with the durations of a script.
ghost use Rattle.std.specs.Prelude.{◌≡◌, ◌≤◌};
ghost use Rattle.bm_base.specs.Memories.{IsMemoryOf};
ghost use Rattle.bm_io.specs.declared.sinks.SinkFault.TheVariants.{Failed};
ghost use Rattle.bm_io.specs.Causes.{HasCause};
ghost use Rattle.bm_course.specs.Course.{Output};
ghost use Rattle.bm_course.specs.Sends.{Sends};
ghost use Rattle.run_text.specs.TraceText.{IsRunTrace};

use crate::{UnitKind, kinds_have_one_trace, write_trace_on};
use bm_base::{MOST_BUDGET, Store};
use bm_io::{Sink, SinkFault};
use dbm_unit::Dbm;
use sbm_unit::Sbm;
use std::alloc::Global;
use stream_image::Image;
use timing_script::Script;
use unit_law::choices_are_lawful;

/// Writes the trace of the run of a program from this memory, on a unit of this kind, with the durations
/// of a script, at clocks of at most `budget` ticks, as `write_trace_on` does.
pub fn write_trace<O: Sink>(
    alloc: Global,
    out: &mut O,
    image: &Image,
    store: Store,
    kind: UnitKind,
    script: Script,
    budget: u64,
) -> Result<u8, SinkFault>
    requires early { budget ≤ MOST_BUDGET }
    requires memory { IsMemoryOf image.now.names store }
    ensures sent { (text : Output) × IsRunTrace image.now kind script store budget text
        × Sends (O.taken out.old) (O.taken out.new) text result }
    ensures cause { HasCause Failed (O.faults out.old) (O.faults out.new) result }
{
    // Only for their contracts.
    let _blocks = image.blocks();
    choices_are_lawful();
    kinds_have_one_trace();
    match kind {
        UnitKind::Static => {
            let unit = Sbm::new(alloc, image.most_masks())?;
            write_trace_on(alloc, out, image, store, unit, script, budget)
        }
        UnitKind::Dynamic => {
            let unit = Dbm::new(alloc, image.most_masks())?;
            write_trace_on(alloc, out, image, store, unit, script, budget)
        }
    }
}
