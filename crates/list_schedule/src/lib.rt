//! The greedy schedule of a block: when and where each of its tuples runs if all take their
//! greatest times.
//!
//! `specs/Greedy.antt` has the test of a finished schedule, `specs/Schedule.antt` what the schedule of
//! a block is, and `specs/Laws.antt` what follows.
#![tactic(auto)]

mod finished;
mod greedy;
mod heights;
mod job;
mod place;
mod steps;
mod tables;
mod totals;

ghost use Rattle.std.specs.Prelude.{◌≡◌, ◌∷◌, [], map};
ghost use Rattle.list_schedule.specs.Job.{height, work, longest};
ghost use Rattle.list_schedule.specs.Greedy.{makespan};
ghost use Rattle.list_schedule.specs.Examples.{sum_job, sum_plan};
ghost use Rattle.list_schedule.specs.Laws.{TheGreedyScheduleIsOne, GrahamsBound, BlocksAreJobs, BlocksHaveOneSchedule};

pub use finished::Schedule;
pub use greedy::schedule;

/// At most one schedule of a job is greedy, and the last finish of a greedy schedule keeps Graham's
/// bound (R. L. Graham, Bounds on multiprocessing timing anomalies, SIAM J. Appl. Math. 17, 1969).
pub fn laws_of_schedules()
    ensures one { TheGreedyScheduleIsOne }
    ensures bound { GrahamsBound }
{}

/// A block of a lawful machine is a job: its times are a tick at least, and its producers are
/// earlier tuples.
pub fn jobs_of_blocks()
    ensures { BlocksAreJobs }
{}

/// At most 128 tuples have a greedy schedule on a lawful machine, and what is told of a schedule
/// fixes it.
pub fn blocks_have_one_schedule()
    ensures { BlocksHaveOneSchedule }
{}

/// The numbers of the schedule of `x = 2 + 3; print x;` on two processors with the default times.
pub fn schedule_examples()
    ensures times { sum_job.times ≡ 1 ∷ 1 ∷ 1 ∷ 2 ∷ 4 ∷ 1 ∷ [] }
    ensures heights { map (height sum_job) (0 ∷ 1 ∷ 2 ∷ 3 ∷ 4 ∷ 5 ∷ []) ≡ 9 ∷ 9 ∷ 8 ∷ 7 ∷ 5 ∷ 1 ∷ [] }
    ensures makespan { makespan sum_job sum_plan ≡ 9 }
    ensures work { work sum_job ≡ 10 }
    ensures longest { longest sum_job ≡ 9 }
{}
