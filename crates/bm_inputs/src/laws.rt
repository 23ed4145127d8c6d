//! Laws of the programs and machines that commands read.

ghost use Rattle.std.specs.Prelude.{ℕ, List};
ghost use Rattle.bm_base.specs.Machine.{Machine, IsMachine};
ghost use Rattle.bm_io.specs.Files.{Held};
ghost use Rattle.bm_words.specs.Table.{MachineOf};
ghost use Rattle.src_names.specs.RProgram.{RProgram};
ghost use Rattle.src_names.specs.Right.{IsRight};
ghost use Rattle.src_names.specs.Sizes.{AllFewNodes};
ghost use Rattle.bm_course.specs.Course.{Gives};
ghost use Rattle.bm_course.specs.Laws.{IsDetermined, Settles};
ghost use Rattle.bm_inputs.specs.Sources.{source_course};
ghost use Rattle.bm_inputs.specs.Machines.{machine_course};

use machine_file::machine_files_mean_machines;
use src_front::{programs_are_read_right, sources_have_one_answer, texts_read_once};

/// After the same contents the course of a source comes to at most one step, and so does that of a
/// machine.
pub fn inputs_have_one_step()
    ensures source { (name : List ℕ) → IsDetermined (source_course name) }
    ensures machine { (machine : MachineOf) → IsDetermined (machine_course machine) }
{
    texts_read_once();
    sources_have_one_answer();
}

/// Whatever the held files hold, they lead to a program or a refusal, and to a machine or a refusal.
pub fn inputs_settle()
    ensures source { (held : Held) (name : List ℕ) → Settles held (source_course name) }
    ensures machine { (held : Held) (machine : MachineOf) → Settles held (machine_course machine) }
{
    sources_have_one_answer();
    machine_files_mean_machines();
}

/// A program that the course of a source gives is right and has at most 120 nodes in each statement,
/// and a machine that one of a machine gives is lawful.
pub fn inputs_are_right()
    ensures source { (name : List ℕ) (contents rest : List (List ℕ)) (p : RProgram) → source_course name contents (Gives p rest)
        → IsRight p }
    ensures nodes { (name : List ℕ) (contents rest : List (List ℕ)) (p : RProgram) → source_course name contents (Gives p rest)
        → AllFewNodes p.body }
    ensures machine { (machine : MachineOf) (contents rest : List (List ℕ)) (m : Machine)
        → machine_course machine contents (Gives m rest) → IsMachine m }
{
    programs_are_read_right();
    machine_files_mean_machines();
}
