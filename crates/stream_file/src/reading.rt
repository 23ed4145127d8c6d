// A text, read line by line.
ghost use Rattle.std.specs.Prelude.{◌-◌, ◌<◌, ◌^◌, length};
ghost use Rattle.stream_file.specs.Laws.{TextsHaveOneAnswer};
ghost use Rattle.stream_file.specs.Built.{Reads};
ghost use Rattle.stream_file.specs.Typed.{ImagesHaveTexts};

use crate::built::Built;
use crate::draft::Draft;
use crate::fault::{ReadFault, StepFault};
use bm_base::Lines;
use std::alloc::Global;

/// What the blocks of a text make. No block's fault is told before all lines are read.
///
/// # Errors
///
/// `Text` exactly where the bytes are no text of an image, with the first line that cannot stand at
/// its place after the lines before it: no text begins with the lines up to it, or it is cut or
/// missing. Want of memory may come for any bytes.
pub fn read(alloc: Global, bytes: &[u8]) -> Result<Built, ReadFault>
    requires { length bytes.now < 2 ^ 32 - 1 }
    ensures { Reads bytes.now result }
{
    let mut draft = Draft::new(alloc);
    let mut built = Built::new();
    let mut lines = Lines::new(bytes);
    let mut count = 0;
    while let Some(line) = lines.next() {
        if !line.ended {
            drop((draft, built));
            return Err(ReadFault::Text { line: line.number });
        }
        match draft.take_line(alloc, built.blocks, line.bytes) {
            Ok(ended) => {
                built = built.with(alloc, &draft, ended);
                count = line.number;
            }
            Err(StepFault::Refused) => {
                drop((draft, built));
                return Err(ReadFault::Text { line: line.number });
            }
            Err(StepFault::Memory) => {
                drop((draft, built));
                return Err(ReadFault::Memory);
            }
        }
    }
    if draft.is_done() {
        drop(draft);
        Ok(built)
    } else {
        drop((draft, built));
        Err(ReadFault::Text { line: count + 1 })
    }
}

/// Bytes are the text of the fields of one image, or they have one first line that cannot stand; not
/// both.
pub fn texts_have_one_answer()
    ensures { TextsHaveOneAnswer }
{}

/// The text of the fields of an image within the ranges that the types give is the text of this image.
pub fn images_have_texts()
    ensures { ImagesHaveTexts }
{}
