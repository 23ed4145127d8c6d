//! Laws of what is shown.

ghost use Rattle.show_text.specs.Laws.{ProgramsAreShownOnce, ProgramsAreShown};

use compiled_image::programs_have_summaries;
use tuple_lower::lowered_blocks_mean_their_programs;

/// One thing alone is shown of a program on a machine, so its listing is one.
pub fn programs_are_shown_once()
    ensures { ProgramsAreShownOnce }
{
    lowered_blocks_mean_their_programs();
}

/// Something is shown of each program that is right, on each lawful machine.
pub fn programs_are_shown()
    ensures { ProgramsAreShown }
{
    programs_have_summaries();
}
