//! Laws of what words ask for.

ghost use Rattle.std.specs.Prelude.{ℕ, List};
ghost use Rattle.bm_io.specs.Files.{Held};
ghost use Rattle.bm_course.specs.Laws.{HasEnd};
ghost use Rattle.bmimd_top.specs.OneStep.{CoursesHaveOneStep, LawsOfReadings};
ghost use Rattle.bmimd_top.specs.Command.{course_of};
ghost use Rattle.bmimd_top.specs.Enough.{EnoughTicksEndRuns};
ghost use Rattle.bmimd_top.specs.ReadBack.{ImagesAreReadBack};

use bm_inputs::{
    beginnings_have_one_step, beginnings_settle, images_have_one_step, images_settle,
    inputs_are_right, inputs_have_one_step, inputs_settle, loaded_images_are_images,
    memories_are_right,
};
use bm_words::requests_are_in_range;
use compiled_image::{images_have_ranges, programs_have_images, programs_have_summaries};
use run_text::{bounded_runs_end, kinds_have_one_trace, runs_have_one_text, runs_have_some_text};
use show_text::{programs_are_shown, programs_are_shown_once};
use soak_text::soaks_settle;
use src_front::programs_are_read_right;
use stream_file::images_have_texts;

/// After the same contents, what words ask for comes to at most one step, and so do its parts.
pub fn words_have_one_step()
    ensures { CoursesHaveOneStep }
{
    inputs_have_one_step();
    inputs_are_right();
    images_have_one_step();
    loaded_images_are_images();
    beginnings_have_one_step();
    programs_have_images();
    programs_have_summaries();
    programs_are_shown_once();
    runs_have_one_text();
    kinds_have_one_trace();
    soaks_settle();
}

/// What commands read comes to at most one step, and what is given of it is right.
pub(crate) fn laws_of_readings()
    ensures { LawsOfReadings }
{
    words_have_one_step();
    inputs_have_one_step();
    inputs_are_right();
    images_have_one_step();
    beginnings_have_one_step();
    memories_are_right();
}

/// Whatever the held files hold, they lead what words ask for to a refusal or an output.
pub fn words_have_an_end()
    ensures { (words : List (List ℕ)) (held : Held) → HasEnd held (course_of words) }
{
    requests_are_in_range();
    inputs_settle();
    inputs_are_right();
    images_settle();
    beginnings_settle();
    memories_are_right();
    programs_have_images();
    programs_have_summaries();
    programs_are_shown();
    runs_have_some_text();
    kinds_have_one_trace();
    soaks_settle();
}

/// Where the source is done within n turns, a budget of n + 1 passes over the blocks shows the end:
/// `go` then answers 0 and not that the program is still going.
pub fn enough_ticks_end_a_run()
    ensures { EnoughTicksEndRuns }
{
    programs_have_images();
    bounded_runs_end();
}

/// What `compile` writes, `run` reads: the text that is written of a source's image is this image's.
pub fn images_are_read_back()
    ensures { ImagesAreReadBack }
{
    programs_are_read_right();
    images_have_ranges();
    images_have_texts();
}
