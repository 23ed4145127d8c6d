//! The top call: from the words of a command line to the bytes that it writes.
//!
//! `specs/Command.antt` says what each row of the command table comes to: a course of files to read and of what
//! comes of their contents. `Evaluating` has what `eval` begins with, `Running` what a run begins with and its text.
#![tactic(auto)]

ghost use Rattle.std.specs.Prelude.{◌≡◌, ℕ, List, Some, None, map};
ghost use Rattle.std.specs.String.{string_bytes};
ghost use Rattle.bm_words.specs.Table.{MachineOf, DataOf, RunWordsOf, request_of};
ghost use Rattle.bm_words.specs.Table.{EvalOf, GoOf, CompileOf, ShowOf, RunOf, TraceOf, CheckOf, SoakOf};
ghost use Rattle.bm_course.specs.Status.{HasEnded};
ghost use Rattle.bm_course.specs.Seen.{files_seen, sink_seen};
ghost use Rattle.bm_course.specs.Ends.{Concludes};
ghost use Rattle.bm_course.specs.Goes.{Goes};
ghost use Rattle.bm_course.specs.Answers.{Answers};
ghost use Rattle.bmimd_top.specs.Command.{course_of};
ghost use Rattle.bmimd_top.specs.Clauses.{seen, IsUsage};
ghost use Rattle.bmimd_top.specs.Headline.{HasRun, HasEvaluated, HasCompiled, HasShown, HasRunImage, HasTraced, HasChecked, HasSoaked};

mod check;
mod compile;
mod eval;
mod go;
mod laws;
mod run;
mod running;
mod show;
mod soak;
mod trace;

use bm_course::{Refusal, Stop, report};
use bm_io::{Files, Sink};
use bm_words::{Command, match_words};
use laws::laws_of_readings;
pub use laws::{
    enough_ticks_end_a_run, images_are_read_back, words_have_an_end, words_have_one_step,
};
use run_text::{runs_mean_the_serial_order, traces_mean_the_serial_order};
use soak_text::soaks_agree;
use std::alloc::Global;
use stream_image::images_are_determinate;

/// How a call of the program ends: 0 it has ended or is done, 1 usage, 2 the source is no program, 3 a limit is
/// passed, 4 the machine file is none, 5 the image is none, 6 the script is none, 7 the data are none, 8 it is still going, 9 a file
/// cannot be read, 10 a write failed, 11 there is no memory.
#[derive(Clone, Copy, Debug, PartialEq, Eq)]
pub struct Status {
    /// The number: one of those above.
    pub code: u8,
}

/// Does what the words ask for: `eval PROG DATA TURNS` evaluates the source of the file PROG for at most TURNS turns
/// of its loops, from the memory of DATA (`none`, or `file:NAME`); `go PROG MACH UNIT SCRIPT DATA BUDGET` runs it on the
/// machine MACH (`default`, or `file:NAME`) with the barrier unit UNIT (`sbm` or `dbm`) and the durations of SCRIPT
/// (`least`, `most`, `seed:N` or `file:NAME`), for BUDGET ticks; `compile PROG MACH OUT` writes the text of the image
/// that it runs to the file OUT, and what was counted of it,
/// and `show PROG MACH` lists its blocks; `run IMAGE UNIT SCRIPT DATA BUDGET` runs the image of the file IMAGE,
/// and `trace` with the same words tells the events of that run; `check IMAGE` counts its blocks, tuples and
/// masks; `soak SEED STATEMENTS` makes a program of STATEMENTS items from the number SEED, compiles it for the default
/// machine, and tells what was counted of it, how its source stands after a million turns, and how its runs on both
/// units with `least`, `most` and `seed:SEED` stand after 10^9 ticks. The text goes to `out`, and the line of a refusal
/// to `err`.
pub fn bmimd<F: Files, O: Sink, E: Sink>(
    alloc: Global,
    words: &[String],
    files: &mut F,
    out: &mut O,
    err: &mut E,
) -> Status
    // After `go` with status 0 or 8 the output took the text of the run of what the source is compiled to, which means
    // what the source means.
    ensures go { (name : List ℕ) (machine : MachineOf) (run : RunWordsOf)
        → request_of (map string_bytes words.now) ≡ Some (GoOf name machine run) → HasEnded result.code
        → HasRun (seen F.held F.asked F.faults O.taken O.faults E.taken E.faults files.old out.old err.old)
        (seen F.held F.asked F.faults O.taken O.faults E.taken E.faults files.new out.new err.new)
        name machine run result.code }

    // After `eval` with status 0 or 8 it took the text of the source's meaning from the memory of the data.
    ensures eval { (name : List ℕ) (given : DataOf) (turns : ℕ)
        → request_of (map string_bytes words.now) ≡ Some (EvalOf name given turns) → HasEnded result.code
        → HasEvaluated (seen F.held F.asked F.faults O.taken O.faults E.taken E.faults files.old out.old err.old)
        (seen F.held F.asked F.faults O.taken O.faults E.taken E.faults files.new out.new err.new)
        name given turns result.code }

    // After `compile` with status 0 or 8 the file holds the text of what the source is compiled to, which means what
    // the source means, and the output took the summary.
    ensures compile { (name : List ℕ) (machine : MachineOf) (file : List ℕ)
        → request_of (map string_bytes words.now) ≡ Some (CompileOf name machine file) → HasEnded result.code
        → HasCompiled (seen F.held F.asked F.faults O.taken O.faults E.taken E.faults files.old out.old err.old)
        (seen F.held F.asked F.faults O.taken O.faults E.taken E.faults files.new out.new err.new)
        name machine file result.code }

    // After `show` with status 0 or 8 it took the listing of the program's blocks on the machine, and the summary.
    ensures show { (name : List ℕ) (machine : MachineOf)
        → request_of (map string_bytes words.now) ≡ Some (ShowOf name machine) → HasEnded result.code
        → HasShown (seen F.held F.asked F.faults O.taken O.faults E.taken E.faults files.old out.old err.old)
        (seen F.held F.asked F.faults O.taken O.faults E.taken E.faults files.new out.new err.new)
        name machine result.code }

    // After `run` with status 0 or 8 it took the text of the run of the image, which means what its blocks mean one
    // after another.
    ensures run { (name : List ℕ) (run : RunWordsOf)
        → request_of (map string_bytes words.now) ≡ Some (RunOf name run) → HasEnded result.code
        → HasRunImage (seen F.held F.asked F.faults O.taken O.faults E.taken E.faults files.old out.old err.old)
        (seen F.held F.asked F.faults O.taken O.faults E.taken E.faults files.new out.new err.new)
        name run result.code }

    // After `trace` with status 0 or 8 it took the trace of the run of the image.
    ensures trace { (name : List ℕ) (run : RunWordsOf)
        → request_of (map string_bytes words.now) ≡ Some (TraceOf name run) → HasEnded result.code
        → HasTraced (seen F.held F.asked F.faults O.taken O.faults E.taken E.faults files.old out.old err.old)
        (seen F.held F.asked F.faults O.taken O.faults E.taken E.faults files.new out.new err.new)
        name run result.code }

    // After `check` with status 0 or 8 it took the line of the image's counts.
    ensures check { (name : List ℕ)
        → request_of (map string_bytes words.now) ≡ Some (CheckOf name) → HasEnded result.code
        → HasChecked (seen F.held F.asked F.faults O.taken O.faults E.taken E.faults files.old out.old err.old)
        (seen F.held F.asked F.faults O.taken O.faults E.taken E.faults files.new out.new err.new)
        name result.code }

    // After `soak` with status 0 or 8 it took the text of the soak; where the status is 0, the source and each of
    // the six runs have printed the same words.
    ensures soak { (seed : ℕ) (statements : ℕ)
        → request_of (map string_bytes words.now) ≡ Some (SoakOf seed statements) → HasEnded result.code
        → HasSoaked (seen F.held F.asked F.faults O.taken O.faults E.taken E.faults files.old out.old err.old)
        (seen F.held F.asked F.faults O.taken O.faults E.taken E.faults files.new out.new err.new)
        seed statements result.code }

    // What is read, what is written and the status are what the words and the contents come to; each status has its
    // cause; what the held files lead to is written or refused, unless a fault or want of memory comes before.
    ensures answers { Answers (seen F.held F.asked F.faults O.taken O.faults E.taken E.faults files.old out.old err.old)
        (seen F.held F.asked F.faults O.taken O.faults E.taken E.faults files.new out.new err.new)
        (course_of (map string_bytes words.now)) result.code }

    // Usage comes exactly where the words match no row.
    ensures usage { result.code ≡ 1 → request_of (map string_bytes words.now) ≡ None }
    ensures unmatched { request_of (map string_bytes words.now) ≡ None
        → IsUsage (seen F.held F.asked F.faults O.taken O.faults E.taken E.faults files.old out.old err.old)
        (seen F.held F.asked F.faults O.taken O.faults E.taken E.faults files.new out.new err.new) result.code }
{
    // Only for their contracts.
    words_have_one_step();
    laws_of_readings();
    enough_ticks_end_a_run();
    images_are_read_back();
    images_are_determinate();
    runs_mean_the_serial_order();
    traces_mean_the_serial_order();
    soaks_agree();
    call(alloc, words, files, out, err)
}

/// Does what the words ask for, and reports a refusal.
fn call<F: Files, O: Sink, E: Sink>(
    alloc: Global,
    words: &[String],
    files: &mut F,
    out: &mut O,
    err: &mut E,
) -> Status
    ensures { Goes (seen F.held F.asked F.faults O.taken O.faults E.taken E.faults files.old out.old err.old)
        (seen F.held F.asked F.faults O.taken O.faults E.taken E.faults files.new out.new err.new)
        (course_of (map string_bytes words.now)) result.code }
{
    let code = match serve(alloc, words, files, out) {
        Ok(code) => code,
        Err(stop) => report(alloc, err, &stop),
    };
    Status { code }
}

/// Does what the words ask for, and reports nothing.
fn serve<'a, F: Files, O: Sink>(
    alloc: Global,
    words: &'a [String],
    files: &mut F,
    out: &mut O,
) -> Result<u8, Stop<'a>>
    ensures { Concludes (files_seen F.held F.asked F.faults files.old) (files_seen F.held F.asked F.faults files.new)
        (sink_seen O.taken O.faults out.old) (sink_seen O.taken O.faults out.new)
        (course_of (map string_bytes words.now)) result }
{
    match match_words(words) {
        None => Err(Stop::Refused(Refusal::Usage)),
        Some(
            Command::Eval {
                program,
                given,
                turns,
            },
        ) => eval::evaluate(alloc, program, given, turns, files, out),
        Some(
            Command::Go {
                program,
                machine,
                run,
            },
        ) => go::go(alloc, program, machine, run, files, out),
        Some(
            Command::Compile {
                program,
                machine,
                out: name,
            },
        ) => compile::compile_into(alloc, program, machine, name, files, out),
        Some(Command::Show { program, machine }) => show::show(alloc, program, machine, files, out),
        Some(Command::Run { image, run }) => run::run_image(alloc, image, run, files, out),
        Some(Command::Trace { image, run }) => trace::trace_image(alloc, image, run, files, out),
        Some(Command::Check { image }) => check::check(alloc, image, files, out),
        Some(Command::Soak { seed, statements }) => soak::soak(alloc, seed, statements, out),
    }
}
