// Laws of soaks.
ghost use Rattle.soak_text.specs.Agree.{EndsAgree, SoaksAgree};
ghost use Rattle.soak_text.specs.Laws.{RunsAreShown, RunsAreShownOnce, SoaksHaveAText, SoaksHaveOneText};
ghost use Rattle.soak_text.specs.SoakCourse.{SoaksHaveOneStep, SoaksSettle};

use crate::{generated_texts_are_read_back, generated_trees_are_named};
use bm_base::{Spec, laws_of_memories};
use compiled_image::{programs_have_images, programs_have_summaries};
use run_text::a_run_shows_one_thing;
use src_front::{programs_are_read_right, texts_read_once};
use src_meaning::turns_only_add;
use unit_law::{canonical_runs_are_runs, choices_are_lawful, lawful_units_run};

/// On each unit, at each pace, the run of an image that a program is compiled to shows one thing.
pub fn runs_are_shown()
    ensures some { RunsAreShown }
    ensures once { RunsAreShownOnce }
{
    let machine = Spec::standard();
    let _processors = machine.processors();
    programs_have_images();
    a_run_shows_one_thing();
    choices_are_lawful();
    laws_of_memories();
}

/// A seed and a number of items, at most `MOST_STATEMENTS`, have exactly one text.
pub fn soaks_have_one_text()
    ensures some { SoaksHaveAText }
    ensures one { SoaksHaveOneText }
{
    let machine = Spec::standard();
    let _processors = machine.processors();
    generated_trees_are_named();
    generated_texts_are_read_back();
    texts_read_once();
    programs_are_read_right();
    programs_have_images();
    programs_have_summaries();
    runs_are_shown();
}

/// Where the source is done and a run has ended, their lines tell of the same words, and they leave the
/// same memory.
pub fn ends_agree()
    ensures { EndsAgree }
{
    let machine = Spec::standard();
    let _processors = machine.processors();
    programs_have_images();
    choices_are_lawful();
    lawful_units_run();
    canonical_runs_are_runs();
    laws_of_memories();
    turns_only_add();
}

/// Where the text of a soak has the status 0, all seven lines tell of the same words.
pub fn soaks_agree()
    ensures { SoaksAgree }
{
    ends_agree();
}

/// A command that soaks asks for no file, refuses nothing, and comes to one text.
pub fn soaks_settle()
    ensures step { SoaksHaveOneStep }
    ensures settles { SoaksSettle }
{
    soaks_have_one_text();
}
