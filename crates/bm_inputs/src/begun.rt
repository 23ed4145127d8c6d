// What a run begins with.
ghost use Rattle.std.specs.Prelude.{◌≡◌, IfOk};
ghost use Rattle.bm_base.specs.Memories.{IsMemoryOf};
ghost use Rattle.bm_words.specs.Seen.{seen_run};
ghost use Rattle.bm_course.specs.Seen.{files_seen};
ghost use Rattle.bm_course.specs.Ends.{Comes};
ghost use Rattle.bm_inputs.specs.Beginning.{begins_course, IsBegun};

use crate::{given_memory, named_script};
use bm_base::Store;
use bm_course::Stop;
use bm_io::Files;
use bm_words::RunWords;
use std::alloc::Global;
use stream_image::Image;
use timing_script::Script;

/// The image of a run, its durations and the memory that it begins with.
#[derive(Drop)]
pub struct Begun {
    /// The image.
    pub image: Image,
    /// The durations.
    pub script: Script,
    /// The memory.
    pub store: Store,
}

/// What the run of an image begins with, as the words have it: the script's file is read, and then that of the data.
pub fn begin<'a, F: Files>(
    alloc: Global,
    files: &mut F,
    image: Image,
    run: RunWords<'a>,
) -> Result<Begun, Stop<'a>>
    ensures comes { Comes IsBegun (files_seen F.held F.asked F.faults files.old) (files_seen F.held F.asked F.faults files.new)
        (begins_course (seen_run run.entry) image) result }
    ensures memory { IfOk result (λ begun. IsMemoryOf begun.image.names begun.store) }
{
    let script = named_script(alloc, files, run.script)?;
    let store = given_memory(alloc, files, image.names(), run.given)?;
    Ok(Begun {
        image,
        script,
        store,
    })
}
