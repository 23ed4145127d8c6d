//! Laws of what runs begin with.

ghost use Rattle.bm_inputs.specs.BeginningLaws.{BeginningsHaveOneStep, BeginningsSettle, MemoriesAreRight};

use bm_base::laws_of_memories;
use timing_script::{data_has_one_answer, script_texts_have_one_answer};

/// After the same contents the course of a script comes to at most one step, and so does that of data for
/// lawful names.
pub fn beginnings_have_one_step()
    ensures { BeginningsHaveOneStep }
{
    script_texts_have_one_answer();
    data_has_one_answer();
}

/// Whatever the held files hold, they lead to a script or a refusal, and to a memory or a refusal.
pub fn beginnings_settle()
    ensures { BeginningsSettle }
{
    script_texts_have_one_answer();
    data_has_one_answer();
}

/// A memory that is given to lawful names is one of these names.
pub fn memories_are_right()
    ensures { MemoriesAreRight }
{
    data_has_one_answer();
    laws_of_memories();
}
