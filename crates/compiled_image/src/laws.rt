// Laws of compiled programs.
ghost use Rattle.bm_base.specs.Machine.{Machine, IsMachine};
ghost use Rattle.unit_law.specs.State.{Program};
ghost use Rattle.unit_law.specs.Fit.{AllFit, AllStand, HasTimes};
ghost use Rattle.src_names.specs.RProgram.{RProgram};
ghost use Rattle.compiled_image.specs.Compiled.{IsCompiled};
ghost use Rattle.compiled_image.specs.Laws.{ProgramsHaveImages, ProgramsHaveOneImage, ImagesAreCompiled, ImagesRunTheirPlans};
ghost use Rattle.compiled_image.specs.Laws.{ProgramsHaveASummary, ProgramsHaveOneSummary, SummariesAddUp};
ghost use Rattle.compiled_image.specs.Ranges.{ImagesHaveRanges};

use tuple_lower::{lowered_blocks_mean_their_programs, lowered_tuples_fit};

/// A program that is right and has at most 120 nodes in each statement is compiled to exactly one
/// image on each lawful machine, which means what the program means; and each image keeps what its
/// runs ask for.
pub fn programs_have_images()
    ensures image { ProgramsHaveImages }
    ensures one { ProgramsHaveOneImage }
    ensures compiled { ImagesAreCompiled }
    ensures fit { (machine : Machine) (p : RProgram) (m : Program) → IsMachine machine → IsCompiled machine p m → AllFit m }
    ensures stand { (machine : Machine) (p : RProgram) (m : Program) → IsMachine machine → IsCompiled machine p m → AllStand m }
    ensures times { (machine : Machine) (p : RProgram) (m : Program) → IsMachine machine → IsCompiled machine p m → HasTimes m }
{
    lowered_blocks_mean_their_programs();
}

/// Where the numbers of a program are in range, so are those of its image.
pub fn images_have_ranges()
    ensures { ImagesHaveRanges }
{
    lowered_tuples_fit();
}

/// Each block of an image has the streams and the masks of its plan's reduced line, which cannot be
/// reduced any more.
pub fn images_run_their_plans()
    ensures { ImagesRunTheirPlans }
{}

/// Such a program has exactly one summary on each lawful machine. In each summary the pairs are those
/// of the three reasons, no more barriers are kept than were inserted, and the sums of the schedules'
/// numbers keep Graham's bound.
pub fn programs_have_summaries()
    ensures some { ProgramsHaveASummary }
    ensures one { ProgramsHaveOneSummary }
    ensures add_up { SummariesAddUp }
{
    lowered_blocks_mean_their_programs();
}
