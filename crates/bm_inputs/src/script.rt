// The script that a word names.
ghost use Rattle.std.specs.Prelude.{◌≡◌};
ghost use Rattle.bm_words.specs.Seen.{seen_script};
ghost use Rattle.bm_course.specs.Seen.{files_seen};
ghost use Rattle.bm_course.specs.Ends.{Comes};
ghost use Rattle.bm_inputs.specs.Scripts.{script_file_course, script_course, IsScript};

use crate::run_lines::script_refusal;
use bm_base::MOST_SCRIPT_BYTES;
use bm_course::{Stop, read_limited};
use bm_io::Files;
use bm_words::ScriptWord;
use std::alloc::Global;
use timing_script::Script;

/// The script of a file.
fn script_of_file<'a, F: Files>(
    alloc: Global,
    files: &mut F,
    name: &'a str,
) -> Result<Script, Stop<'a>>
    ensures { Comes IsScript (files_seen F.held F.asked F.faults files.old) (files_seen F.held F.asked F.faults files.new)
        (script_file_course name.now) result }
{
    let bytes = read_limited(alloc, files, name, MOST_SCRIPT_BYTES)?;
    match Script::read(alloc, &bytes) {
        Ok(script) => Ok(script),
        Err(fault) => match script_refusal(fault) {
            Some(refusal) => Err(Stop::Refused(refusal)),
            None => Err(Stop::Memory),
        },
    }
}

/// The script that a word names; that of a file has at most 16,777,216 bytes.
pub fn named_script<'a, F: Files>(
    alloc: Global,
    files: &mut F,
    script: ScriptWord<'a>,
) -> Result<Script, Stop<'a>>
    ensures { Comes IsScript (files_seen F.held F.asked F.faults files.old) (files_seen F.held F.asked F.faults files.new)
        (script_course (seen_script script.entry)) result }
{
    match script {
        ScriptWord::Least => Ok(Script::Least),
        ScriptWord::Most => Ok(Script::Most),
        ScriptWord::Seed { n } => Ok(Script::Seed { n }),
        ScriptWord::File { name } => script_of_file(alloc, files, name),
    }
}
