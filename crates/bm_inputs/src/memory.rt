// The memory that a word names.
ghost use Rattle.std.specs.Prelude.{◌≡◌, IfOk};
ghost use Rattle.bm_base.specs.Memories.{IsMemoryOf};
ghost use Rattle.bm_words.specs.Seen.{seen_data};
ghost use Rattle.bm_course.specs.Seen.{files_seen};
ghost use Rattle.bm_course.specs.Ends.{Comes};
ghost use Rattle.bm_inputs.specs.Memories.{data_file_course, memory_course, IsMemory};

use crate::run_lines::data_refusal;
use bm_base::{MOST_DATA_BYTES, Names, Store};
use bm_course::{Stop, read_limited};
use bm_io::Files;
use bm_words::DataWord;
use std::alloc::Global;
use timing_script::read_data;

/// The memory that the data of a file give these names.
fn memory_of_file<'a, F: Files>(
    alloc: Global,
    files: &mut F,
    names: &Names,
    name: &'a str,
) -> Result<Store, Stop<'a>>
    ensures comes { Comes IsMemory (files_seen F.held F.asked F.faults files.old) (files_seen F.held F.asked F.faults files.new)
        (data_file_course names.now name.now) result }
    ensures memory { IfOk result (λ store. IsMemoryOf names.now store) }
{
    let bytes = read_limited(alloc, files, name, MOST_DATA_BYTES)?;
    match read_data(alloc, names, &bytes) {
        Ok(store) => Ok(store),
        Err(fault) => match data_refusal(fault) {
            Some(refusal) => Err(Stop::Refused(refusal)),
            None => Err(Stop::Memory),
        },
    }
}

/// The memory that a word gives these names: the declared one, or that with the values of a file of at most
/// 16,777,216 bytes laid over it.
pub fn given_memory<'a, F: Files>(
    alloc: Global,
    files: &mut F,
    names: &Names,
    given: DataWord<'a>,
) -> Result<Store, Stop<'a>>
    ensures comes { Comes IsMemory (files_seen F.held F.asked F.faults files.old) (files_seen F.held F.asked F.faults files.new)
        (memory_course names.now (seen_data given.entry)) result }
    ensures memory { IfOk result (λ store. IsMemoryOf names.now store) }
{
    match given {
        DataWord::Declared => Ok(Store::new(alloc, names)?),
        DataWord::File { name } => memory_of_file(alloc, files, names, name),
    }
}
