// Values that are written as lines.
ghost use Rattle.std.specs.Prelude.{◌≡◌, ℕ, Bool, false};
ghost use Rattle.bm_io.specs.Sink.{Taken};
ghost use Rattle.bm_io.specs.LineValues.{value_line, with_line, LeavesPrefix};

use crate::{Sink, SinkFault, Values};
use bm_base::Piece;

/// Writes each value as one line, its decimal text and an LF, in one write.
///
/// It holds what its sink took, and its faults are the sink's.
#[derive(Drop)]
pub struct LineValues<'a, O: Sink> {
    out: &'a mut O,
}

impl<'a, O: Sink> LineValues<'a, O> {
    /// Writes to this sink. It takes no memory.
    pub fn new(out: &'a mut O) -> LineValues<'a, O>
        ensures same_reference { result.out.ghost_name ≡ out.entry.ghost_name }
        ensures sink { result.out.now ≡ out.old }
    {
        LineValues { out }
    }
}

/// The line of a value.
fn line(value: i64) -> Piece
    ensures { result ≡ value_line value }
{
    let mut line = Piece::new();
    line.number(value);
    line.text(b"\n");
    line
}

impl<O: Sink> Values for LineValues<'_, O> {
    ghost Held = { Taken };

    ghost held = { λ v. O.taken v.out.now };

    ghost with_value = { with_line };

    ghost leaves = { LeavesPrefix };

    ghost faults = { λ v. O.faults v.out.now };

    ghost is_sure = { false };

    ghost lender = { λ v. v.out.ghost_name };

    fn value(&mut self, value: i64) -> Result<(), SinkFault> {
        self.out.write(line(value).bytes())
    }
}
