//! Laws of the images that commands read.

ghost use Rattle.std.specs.Prelude.{ℕ, List};
ghost use Rattle.bm_io.specs.Files.{Held};
ghost use Rattle.unit_law.specs.State.{Program};
ghost use Rattle.stream_image.specs.Image.{IsImage};
ghost use Rattle.bm_course.specs.Course.{Gives};
ghost use Rattle.bm_course.specs.Laws.{IsDetermined, Settles};
ghost use Rattle.bm_inputs.specs.Images.{loaded_course};

use stream_file::texts_have_one_answer;

/// After the same contents the course of an image comes to at most one step.
pub fn images_have_one_step()
    ensures { (name : List ℕ) → IsDetermined (loaded_course name) }
{
    texts_have_one_answer();
}

/// Whatever the held files hold, they lead to an image or a refusal.
pub fn images_settle()
    ensures { (held : Held) (name : List ℕ) → Settles held (loaded_course name) }
{
    texts_have_one_answer();
}

/// What the course of an image gives keeps what an image keeps.
pub fn loaded_images_are_images()
    ensures { (name : List ℕ) (contents rest : List (List ℕ)) (m : Program) → loaded_course name contents (Gives m rest) → IsImage m }
{}
