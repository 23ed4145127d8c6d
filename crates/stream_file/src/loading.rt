// Images, loaded from their texts.
ghost use Rattle.std.specs.Prelude.{◌≡◌, ◌⊎◌, ◌-◌, ◌<◌, ◌^◌, ℕ, length, IfOk, IfErr, MatchResult};
ghost use Rattle.unit_law.specs.State.{Program};
ghost use Rattle.stream_image.specs.declared.fault.ImageFault.{ImageFault};
ghost use Rattle.stream_file.specs.declared.loading.LoadFault.TheVariants as loads;
ghost use Rattle.stream_file.specs.First.{IsFirstWrong};
ghost use Rattle.stream_file.specs.Images as spec;

use crate::built::finish;
use crate::fault::ReadFault;
use crate::reading::read;
use std::alloc::Global;
use stream_image::{Image, ImageFault};

/// Why bytes are not loaded as an image.
#[derive(Clone, Copy)]
pub enum LoadFault {
    /// The bytes are no text of an image: the first line that cannot stand at its place after the
    /// lines before it.
    Text {
        /// Its number, from 1.
        line: u32,
    },
    /// The bytes are a text of blocks that no image has.
    Image {
        /// The first cause.
        fault: ImageFault,
    },
    /// Memory ran out.
    Memory,
}

fn told(fault: ImageFault) -> LoadFault
    ensures { result ≡ spec.told fault }
{
    match fault {
        ImageFault::Memory => LoadFault::Memory,
        _ => LoadFault::Image { fault },
    }
}

/// The image of a text, or why there is none.
fn load_text(alloc: Global, bytes: &[u8]) -> Result<Image, LoadFault>
    requires { length bytes.now < 2 ^ 32 - 1 }
    ensures found { IfOk result (λ image. spec.IsTextOfImage bytes.now image) }
    ensures fault { IfErr result (λ e. spec.IsLoadFault bytes.now e) }
{
    let built = match read(alloc, bytes) {
        Ok(built) => built,
        Err(ReadFault::Text { line }) => return Err(LoadFault::Text { line }),
        Err(ReadFault::Memory) => return Err(LoadFault::Memory),
    };
    match finish(built.made) {
        Ok(image) => Ok(image),
        Err(fault) => Err(told(fault)),
    }
}

/// The image of a text.
///
/// # Errors
///
/// `Text` exactly where the bytes are no text of an image, with the first line that cannot stand at
/// its place after the lines before it: no text begins with the lines up to it, or it is cut or
/// missing. Else `Image` exactly where no image has what the text says, with the first cause: that of
/// the first block that is refused, else of the first target that is no block. Want of memory may
/// come for any bytes.
pub fn load(alloc: Global, bytes: &[u8]) -> Result<Image, LoadFault>
    requires { length bytes.now < 2 ^ 32 - 1 }
    // What is loaded is the image of this text,
    ensures found { IfOk result (λ image. spec.IsTextOfImage bytes.now image) }
    // and the image of a text is loaded, unless memory runs out.
    ensures only { (m : Program) → spec.IsTextOfImage bytes.now m → MatchResult result (λ image. image ≡ m) (λ e. e ≡ loads.Memory) }
    // What is told is so,
    ensures fault { IfErr result (λ e. spec.IsLoadFault bytes.now e) }
    // and what is so is told, unless memory runs out.
    ensures only_text { (line : ℕ) → IsFirstWrong bytes.now line
        → MatchResult result (λ _. ⊥) (λ e. (e ≡ loads.Text line) ⊎ (e ≡ loads.Memory)) }
    ensures only_image { (f : ImageFault) → spec.IsRefusedText bytes.now f
        → MatchResult result (λ _. ⊥) (λ e. (e ≡ loads.Image f) ⊎ (e ≡ loads.Memory)) }
{
    load_text(alloc, bytes)
}
