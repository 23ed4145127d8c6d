// A machine that is carried to its run's end, or to the end of its time.
ghost use Rattle.std.specs.Prelude.{◌≡◌, ◌<◌, ◌≤◌, Ok, IsTrue, IsOk};
ghost use Rattle.run_text.specs.declared.runs.RunEnd.TheVariants.{Going};
ghost use Rattle.bm_io.specs.declared.sinks.SinkFault.TheVariants.{Failed};
ghost use Rattle.bm_io.specs.Causes.{HasCause};
ghost use Rattle.bm_machine.specs.Next.{Stays};
ghost use Rattle.run_text.specs.Runs.{ComesOn, RunsTo, GivesOn, TellsTo};

use crate::events::{Events, Prints};
use bm_base::MOST_BUDGET;
use bm_io::{SinkFault, Values};
use bm_machine::Machine;
use timing_law::Timing;
use tuple_ir::Event;
use unit_law::BarrierUnit;

/// Where a run stands once its time is over.
#[derive(Clone, Copy, Debug, PartialEq, Eq)]
pub enum RunEnd {
    /// It has ended.
    Ended,
    /// It has not ended by then.
    Going,
}

/// Carries a machine to its run's end, or as far as clocks of at most `until` allow, and gives on each
/// event by which the run goes on, in order.
///
/// It takes no memory. The first event that is refused ends the call with its fault; the machine then
/// stands behind it. Where the clock is past `until` already, the run is going, and nothing changes.
pub fn run<U: BarrierUnit, T: Timing, E: Events>(
    machine: &mut Machine<'_, U, T>,
    until: u64,
    out: &mut E,
) -> Result<RunEnd, SinkFault>
    requires early { until ≤ MOST_BUDGET }
    ensures stays { Stays U.choice machine.old machine.new }
    ensures come { ComesOn U.choice T.duration machine.old machine.new }
    ensures in_time { machine.old.state.clock ≤ until → machine.new.state.clock ≤ until }
    ensures late { until < machine.old.state.clock → (result ≡ Ok Going) × (machine.new.state ≡ machine.old.state)
        × (E.held out.new ≡ E.held out.old) }
    ensures tells { TellsTo U.choice T.duration machine.old machine.new until E.with_event E.leaves (E.held out.old)
        (E.held out.new) result }
    ensures cause { HasCause Failed (E.faults out.old) (E.faults out.new) result }
    ensures sure { IsTrue E.is_sure → IsOk result }
    ensures lender { E.lender out.new ≡ E.lender out.old }
{
    loop {
        let event = machine.next(until);
        match event {
            Event::Ended { .. } => return Ok(RunEnd::Ended),
            Event::Reached => return Ok(RunEnd::Going),
            _ => {
                if let Err(fault) = out.event(event) {
                    return Err(fault);
                }
            }
        }
    }
}

/// Carries a machine on as `run` does, and gives on each word that is printed, in order.
pub fn run_prints<U: BarrierUnit, T: Timing, V: Values>(
    machine: &mut Machine<'_, U, T>,
    until: u64,
    out: &mut Prints<V>,
) -> Result<RunEnd, SinkFault>
    requires early { until ≤ MOST_BUDGET }
    ensures stays { Stays U.choice machine.old machine.new }
    ensures come { ComesOn U.choice T.duration machine.old machine.new }
    ensures in_time { machine.old.state.clock ≤ until → machine.new.state.clock ≤ until }
    ensures late { until < machine.old.state.clock → (result ≡ Ok Going) × (machine.new.state ≡ machine.old.state)
        × (V.held out.new.values ≡ V.held out.old.values) }
    ensures runs { RunsTo U.choice T.duration machine.old machine.new until V.with_value V.leaves (V.held out.old.values)
        (V.held out.new.values) result }
    ensures took { GivesOn U.choice T.duration machine.old until V.with_value V.leaves (V.held out.old.values)
        (V.held out.new.values) result }
    ensures cause { HasCause Failed (V.faults out.old.values) (V.faults out.new.values) result }
    ensures sure { IsTrue V.is_sure → IsOk result }
    ensures lender { V.lender out.new.values ≡ V.lender out.old.values }
{
    run(machine, until, out)
}
