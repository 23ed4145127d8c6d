// The trait of what takes the events of a run, and what takes their prints alone.
ghost use Rattle.std.specs.Prelude.{◌≡◌, ℕ, Bool, IsTrue, IsOk, OnOk, IfErr};
ghost use Rattle.bm_io.specs.declared.sinks.SinkFault.{SinkFault};
ghost use Rattle.bm_io.specs.declared.sinks.SinkFault.TheVariants.{Failed};
ghost use Rattle.bm_io.specs.Causes.{HasCause};
ghost use Rattle.tuple_ir.specs.declared.event.Event.{Event};

use bm_io::{SinkFault, Values};
use tuple_ir::Event;

/// Takes the events of a run, one after another: all but its end.
///
/// Each kind says what it holds (`held`), what it holds once one more event is taken (`with_event`)
/// and what a refused event may leave (`leaves`). `faults` counts faults. It never falls, and stands
/// still at 2^64 - 1. A kind that is sure refuses no event. `lender` is the reference that a kind
/// writes through, by its ghost name; it stays the same.
pub trait Events {
    ghost Held: { Type 0 };

    ghost held: { Self → Held };

    ghost with_event: { Held → Event → Held };

    ghost leaves: { SinkFault → Held → Event → Held → Type 0 };

    ghost faults: { Self → ℕ };

    ghost is_sure: { Bool };

    ghost lender: { Self → ℕ };

    /// Takes an event, behind those that were taken before.
    fn event(&mut self, event: Event) -> Result<(), SinkFault>
        ensures taken { OnOk result (held self.new ≡ with_event (held self.old) event) }
        ensures refused { IfErr result (λ fault. leaves fault (held self.old) event (held self.new)) }
        ensures cause { HasCause Failed (faults self.old) (faults self.new) result }
        ensures sure { IsTrue is_sure → IsOk result }
        ensures lender { lender self.new ≡ lender self.old };
}

/// Takes the words that a run prints, and nothing else of its events.
#[derive(Drop)]
pub struct Prints<V: Values> {
    values: V,
}

impl<V: Values> Prints<V> {
    /// Gives each word on to this.
    pub fn new(values: V) -> Prints<V>
        ensures { result.values ≡ values }
    {
        Prints { values }
    }
}

impl<V: Values> Events for Prints<V> {
    ghost use Rattle.run_text.specs.Told.{with_print, leaves_print};

    ghost Held = { V.Held };

    ghost held = { λ p. V.held p.values };

    ghost with_event = { with_print V.with_value };

    ghost leaves = { leaves_print V.leaves };

    ghost faults = { λ p. V.faults p.values };

    ghost is_sure = { V.is_sure };

    ghost lender = { λ p. V.lender p.values };

    fn event(&mut self, event: Event) -> Result<(), SinkFault> {
        match event {
            Event::Printed { value, .. } => self.values.value(value),
            _ => Ok(()),
        }
    }
}
