// The image of a file.
ghost use Rattle.bm_course.specs.Seen.{files_seen};
ghost use Rattle.bm_course.specs.Ends.{Comes};
ghost use Rattle.bm_inputs.specs.Images.{IsLoaded, loaded_course};

use crate::image_lines::load_refusal;
use bm_base::MOST_IMAGE_BYTES;
use bm_course::{Stop, read_limited};
use bm_io::Files;
use std::alloc::Global;
use stream_file::load;
use stream_image::Image;

/// The image of a file of at most 134,217,728 bytes.
pub fn loaded_image<'a, F: Files>(
    alloc: Global,
    files: &mut F,
    name: &'a str,
) -> Result<Image, Stop<'a>>
    ensures { Comes IsLoaded (files_seen F.held F.asked F.faults files.old) (files_seen F.held F.asked F.faults files.new)
        (loaded_course name.now) result }
{
    let bytes = read_limited(alloc, files, name, MOST_IMAGE_BYTES)?;
    match load(alloc, &bytes) {
        Ok(image) => Ok(image),
        Err(fault) => match load_refusal(fault) {
            Some(refusal) => Err(Stop::Refused(refusal)),
            None => Err(Stop::Memory),
        },
    }
}
