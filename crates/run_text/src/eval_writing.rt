// The text of an evaluation, as the program is evaluated.
ghost use Rattle.std.specs.Prelude.{◌≡◌, IfOk, OnOk};
ghost use Rattle.bm_io.specs.declared.sinks.SinkFault.TheVariants.{Failed};
ghost use Rattle.bm_io.specs.Causes.{HasCause};
ghost use Rattle.bm_io.specs.LineValues.{with_line, LeavesPrefix};
ghost use Rattle.bm_io.specs.Values.{Took};
ghost use Rattle.bm_base.specs.Memories.{IsMemoryOf};
ghost use Rattle.src_meaning.specs.Meaning.{meaning};
ghost use Rattle.bm_course.specs.Sends.{Sends};
ghost use Rattle.run_text.specs.EvalText.{eval_text, end_lines, end_status};

use bm_base::{Names, Store};
use bm_course::status;
use bm_io::{LineValues, Sink, SinkFault};
use bm_report::{write_done, write_going};
use src_meaning::{End, eval};
use src_names::Resolved;

/// Writes how an evaluation stands, and answers its status.
fn write_end<O: Sink>(
    out: &mut O,
    end: End,
    names: &Names,
    store: &Store,
    turns: u64,
) -> Result<u8, SinkFault>
    requires { IsMemoryOf names.now store.now }
    ensures sent { Sends (O.taken out.old) (O.taken out.new)
        (record { status = end_status end; lines = end_lines end names.now store.now turns }) result }
    ensures cause { HasCause Failed (O.faults out.old) (O.faults out.new) result }
{
    match end {
        End::Done => {
            write_done(out, names, store)?;
            Ok(status::ENDED)
        }
        End::More => {
            write_going(out, turns)?;
            Ok(status::GOING)
        }
    }
}

/// Writes a line for each print of a program within these turns, and leaves the memory in the store.
fn write_prints<O: Sink>(
    out: &mut O,
    program: &Resolved,
    store: &mut Store,
    turns: u64,
) -> Result<End, SinkFault>
    requires { IsMemoryOf program.now.names store.old }
    ensures took { Took with_line LeavesPrefix (O.taken out.old) (O.taken out.new) (meaning program.now store.old turns).output result }
    ensures end { IfOk result (λ end. end ≡ (meaning program.now store.old turns).end) }
    ensures memory { OnOk result (store.new ≡ (meaning program.now store.old turns).memory) }
    ensures names { IsMemoryOf program.now.names store.new }
    ensures cause { HasCause Failed (O.faults out.old) (O.faults out.new) result }
{
    let mut values = LineValues::new(out);
    eval(program, store, turns, &mut values)
}

/// Writes the evaluation of a program from this memory for at most so many turns of its loops: a line for each print,
/// and then how it stands. It answers 0 where it is done, and 8 where a loop goes on.
pub fn write_evaluation<O: Sink>(
    out: &mut O,
    program: &Resolved,
    mut store: Store,
    turns: u64,
) -> Result<u8, SinkFault>
    requires { IsMemoryOf program.now.names store }
    ensures sent { Sends (O.taken out.old) (O.taken out.new) (eval_text program.now store turns) result }
    ensures cause { HasCause Failed (O.faults out.old) (O.faults out.new) result }
{
    let end = write_prints(out, program, &mut store, turns)?;
    write_end(out, end, program.names(), &store, turns)
}
