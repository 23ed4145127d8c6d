// Values of which only a count and a fold are kept.
ghost use Rattle.std.specs.Prelude.{◌≡◌, ◌+ℤ◌, ◌*ℤ◌, pos, Bool, true};
ghost use Rattle.bm_base.specs.Word.{wrap};

use crate::{SinkFault, Values};

/// Keeps the count of the values, modulo 2^64, and their fold `h = h * 31 + v`, wrapping; both are
/// 0 before the first value. It refuses none.
#[derive(Clone, Copy, Debug, Default, PartialEq, Eq, Drop)]
pub struct FoldValues {
    /// How many values were taken, modulo 2^64.
    pub count: u64,
    /// The fold of the values.
    pub fold: i64,
}

/// The fold once one more value is taken.
fn folded(fold: i64, value: i64) -> i64
    ensures { result ≡ wrap ((fold *ℤ pos 31) +ℤ value) }
{
    fold.wrapping_mul(31).wrapping_add(value)
}

impl Values for FoldValues {
    ghost use Rattle.bm_io.specs.declared.fold_values.FoldValues.{FoldValues};
    ghost use Rattle.bm_io.specs.FoldValues.{with_value, NeverLeaves};

    ghost Held = { FoldValues };

    ghost held = { λ v. v };

    ghost with_value = { with_value };

    ghost leaves = { NeverLeaves };

    ghost faults = { λ _. 0 };

    ghost is_sure = { true };

    ghost lender = { λ _. 0 };

    fn value(&mut self, value: i64) -> Result<(), SinkFault> {
        self.count = self.count.wrapping_add(1);
        self.fold = folded(self.fold, value);
        Ok(())
    }
}
