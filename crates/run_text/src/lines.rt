// Events that are written as lines.
ghost use Rattle.std.specs.Prelude.{◌≡◌, ℕ, Bool, false, IsTrue};
ghost use Rattle.bm_io.specs.Sink.{Taken};
ghost use Rattle.bm_report.specs.Events as spec;
ghost use Rattle.bm_report.specs.Events.{has_line};
ghost use Rattle.run_text.specs.EventLines.{with_event_line, LeavesEvent};

use crate::Events;
use bm_base::Piece;
use bm_io::{Sink, SinkFault};
use bm_report::event_line;
use tuple_ir::Event;

/// Writes each event by which a run goes on as one line, in one write, and passes over its end.
///
/// It holds what its sink took, and its faults are the sink's.
#[derive(Drop)]
pub struct EventLines<'a, O: Sink> {
    out: &'a mut O,
}

impl<'a, O: Sink> EventLines<'a, O> {
    /// Writes to this sink. It takes no memory.
    pub fn new(out: &'a mut O) -> EventLines<'a, O>
        ensures same_reference { result.out.ghost_name ≡ out.entry.ghost_name }
        ensures sink { result.out.now ≡ out.old }
    {
        EventLines { out }
    }
}

/// The line of an event.
fn line(event: &Event) -> Piece
    requires { IsTrue (has_line event.now) }
    ensures { result ≡ spec.event_line event.now }
{
    let mut line = Piece::new();
    event_line(event, &mut line);
    line
}

impl<O: Sink> Events for EventLines<'_, O> {
    ghost Held = { Taken };

    ghost held = { λ v. O.taken v.out.now };

    ghost with_event = { with_event_line };

    ghost leaves = { LeavesEvent };

    ghost faults = { λ v. O.faults v.out.now };

    ghost is_sure = { false };

    ghost lender = { λ v. v.out.ghost_name };

    fn event(&mut self, event: Event) -> Result<(), SinkFault> {
        match event {
            Event::Ended { .. } | Event::Reached => Ok(()),
            _ => self.out.write(line(&event).bytes()),
        }
    }
}
