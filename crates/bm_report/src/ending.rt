// How a run stands.
ghost use Rattle.std.specs.Prelude.{◌≡◌, ◌≤◌, ◌++◌, length, codes, decimal};
ghost use Rattle.bm_io.specs.declared.sinks.SinkFault.TheVariants.{Failed};
ghost use Rattle.bm_io.specs.Causes.{HasCause};
ghost use Rattle.bm_io.specs.Sink.{Sent};
ghost use Rattle.bm_base.specs.Memories.{IsMemoryOf};
ghost use Rattle.bm_report.specs.Text.{line, end_lines, done_lines, going_lines};

use crate::memory::write_memory;
use bm_base::{Names, Piece, Store};
use bm_io::{Sink, SinkFault};

/// A line of some words and a number.
fn count_line(words: &[u8], value: u64) -> Piece
    requires { length words.now ≤ 100 }
    ensures { result ≡ line (words.now ++ decimal value) }
{
    let mut piece = Piece::new();
    piece.text(words);
    piece.count(value);
    piece.text(b"\n");
    piece
}

/// Writes that a run ended at this clock, and its memory.
pub fn write_end<O: Sink>(
    out: &mut O,
    clock: u64,
    names: &Names,
    store: &Store,
) -> Result<(), SinkFault>
    requires { IsMemoryOf names.now store.now }
    ensures sent { Sent (O.taken out.old) (O.taken out.new) (end_lines clock names.now store.now) result }
    ensures cause { HasCause Failed (O.faults out.old) (O.faults out.new) result }
{
    out.write(count_line(b"end ", clock).bytes())?;
    write_memory(out, names, store)
}

/// Writes that an evaluation is done, and its memory.
pub fn write_done<O: Sink>(out: &mut O, names: &Names, store: &Store) -> Result<(), SinkFault>
    requires { IsMemoryOf names.now store.now }
    ensures sent { Sent (O.taken out.old) (O.taken out.new) (done_lines names.now store.now) result }
    ensures cause { HasCause Failed (O.faults out.old) (O.faults out.new) result }
{
    out.write(b"done\n")?;
    write_memory(out, names, store)
}

/// Writes that a run goes on after so many ticks, or an evaluation after so many turns.
pub fn write_going<O: Sink>(out: &mut O, count: u64) -> Result<(), SinkFault>
    ensures sent { Sent (O.taken out.old) (O.taken out.new) (going_lines count) result }
    ensures cause { HasCause Failed (O.faults out.old) (O.faults out.new) result }
{
    out.write(count_line(b"still going ", count).bytes())
}
