// How a run stands at its budget.
ghost use Rattle.std.specs.Prelude.{◌≡◌};
ghost use Rattle.bm_io.specs.declared.sinks.SinkFault.TheVariants.{Failed};
ghost use Rattle.bm_io.specs.Causes.{HasCause};
ghost use Rattle.run_text.specs.Runs.{end_told};
ghost use Rattle.bm_course.specs.Sends.{Sends};
ghost use Rattle.run_text.specs.RunText.{ending_text};

use crate::RunEnd;
use bm_base::Names;
use bm_course::status;
use bm_io::{Sink, SinkFault};
use bm_machine::Machine;
use bm_report::{write_end, write_going};
use timing_law::Timing;
use unit_law::BarrierUnit;

/// Writes how a machine's run stands at its budget, behind the lines that tell of it: its end with its
/// memory, or that it goes on. It answers 0 where the run has ended, and 8 where it is still going.
pub fn write_ending<U: BarrierUnit, T: Timing, O: Sink>(
    out: &mut O,
    machine: &Machine<'_, U, T>,
    names: &Names,
    budget: u64,
    end: RunEnd,
) -> Result<u8, SinkFault>
    requires { names.now ≡ machine.now.program.names }
    ensures sent { Sends (O.taken out.old) (O.taken out.new)
        (ending_text machine.now.program.names budget (end_told end machine.now.state)) result }
    ensures cause { HasCause Failed (O.faults out.old) (O.faults out.new) result }
{
    match end {
        RunEnd::Ended => {
            write_end(out, machine.clock(), names, machine.store())?;
            Ok(status::ENDED)
        }
        RunEnd::Going => {
            write_going(out, budget)?;
            Ok(status::GOING)
        }
    }
}
