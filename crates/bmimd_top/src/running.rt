// A run, as the words have it.
ghost use Rattle.std.specs.Prelude.{◌≡◌, ◌≤◌};
ghost use Rattle.bm_base.specs.Memories.{IsMemoryOf};
ghost use Rattle.bm_words.specs.Seen.{seen_unit, seen_run};
ghost use Rattle.bm_io.specs.declared.sinks.SinkFault.TheVariants.{Failed};
ghost use Rattle.bm_io.specs.Causes.{HasCause};
ghost use Rattle.bm_course.specs.Course.{Output};
ghost use Rattle.bm_course.specs.Sends.{Sends};
ghost use Rattle.bmimd_top.specs.Running.{kind_of, IsRunBy, IsTraceBy};
ghost use Rattle.bm_inputs.specs.Beginning.{beginning};

use bm_base::MOST_BUDGET;
use bm_inputs::Begun;
use bm_io::{Sink, SinkFault};
use bm_words::{RunWords, UnitWord};
use run_text::{UnitKind, write_run, write_trace};
use std::alloc::Global;

/// The kind of unit that a word names.
fn unit_named(word: UnitWord) -> UnitKind
    ensures { result ≡ kind_of (seen_unit word) }
{
    match word {
        UnitWord::Static => UnitKind::Static,
        UnitWord::Dynamic => UnitKind::Dynamic,
    }
}

/// Writes the text of the run that begins so.
pub(crate) fn write_text<O: Sink>(
    alloc: Global,
    out: &mut O,
    begun: Begun,
    run: RunWords<'_>,
) -> Result<u8, SinkFault>
    requires early { run.budget ≤ MOST_BUDGET }
    requires memory { IsMemoryOf begun.image.names begun.store }
    ensures sent { (text : Output) × IsRunBy (seen_run run.entry) (beginning begun.image begun.script begun.store) text
        × Sends (O.taken out.old) (O.taken out.new) text result }
    ensures cause { HasCause Failed (O.faults out.old) (O.faults out.new) result }
{
    let kind = unit_named(run.unit);
    let Begun {
        image,
        script,
        store,
    } = begun;
    write_run(alloc, out, &image, store, kind, script, run.budget)
}

/// Writes the trace of the run that begins so.
pub(crate) fn write_traced<O: Sink>(
    alloc: Global,
    out: &mut O,
    begun: Begun,
    run: RunWords<'_>,
) -> Result<u8, SinkFault>
    requires early { run.budget ≤ MOST_BUDGET }
    requires memory { IsMemoryOf begun.image.names begun.store }
    ensures sent { (text : Output) × IsTraceBy (seen_run run.entry) (beginning begun.image begun.script begun.store) text
        × Sends (O.taken out.old) (O.taken out.new) text result }
    ensures cause { HasCause Failed (O.faults out.old) (O.faults out.new) result }
{
    let kind = unit_named(run.unit);
    let Begun {
        image,
        script,
        store,
    } = begun;
    write_trace(alloc, out, &image, store, kind, script, run.budget)
}
