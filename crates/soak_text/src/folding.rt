// Words that are kept in a fold, which stays with its owner.
ghost use Rattle.std.specs.Prelude.{◌≡◌};

use bm_io::{FoldValues, SinkFault, Values};

/// Gives each word on to a fold.
#[derive(Drop)]
pub(crate) struct Folding<'a> {
    prints: &'a mut FoldValues,
}

impl<'a> Folding<'a> {
    /// Gives words on to this fold.
    pub(crate) fn new(prints: &'a mut FoldValues) -> Folding<'a>
        ensures same_reference { result.prints.ghost_name ≡ prints.entry.ghost_name }
        ensures prints { result.prints.now ≡ prints.old }
    {
        Folding { prints }
    }
}

impl Values for Folding<'_> {
    ghost use Rattle.std.specs.Prelude.{true};
    ghost use Rattle.bm_io.specs.declared.fold_values.FoldValues.{FoldValues};
    ghost use Rattle.bm_io.specs.FoldValues.{with_value, NeverLeaves};

    ghost Held = { FoldValues };

    ghost held = { λ v. v.prints.now };

    ghost with_value = { with_value };

    ghost leaves = { NeverLeaves };

    ghost faults = { λ _. 0 };

    ghost is_sure = { true };

    ghost lender = { λ v. v.prints.ghost_name };

    fn value(&mut self, value: i64) -> Result<(), SinkFault> {
        self.prints.value(value)
    }
}
