// The trait of what takes values, and what a call of it may answer.
ghost use Rattle.std.specs.Prelude.{◌≡◌, ℕ, ℤ, Bool, IsTrue, IsOk, OnOk, IfErr};
ghost use Rattle.bm_io.specs.declared.sinks.SinkFault.{SinkFault};
ghost use Rattle.bm_io.specs.declared.sinks.SinkFault.TheVariants.{Failed};
ghost use Rattle.bm_io.specs.Causes.{HasCause};

use crate::SinkFault;

/// Takes words, one after another.
///
/// Each kind says what it holds (`held`), what it holds once one more value is taken (`with_value`)
/// and what a refused value may leave (`leaves`). `faults` counts faults. It never falls, and stands
/// still at 2^64 - 1. A kind that is sure refuses no value. `lender` is the reference that a kind
/// writes through, by its ghost name; it stays the same.
pub trait Values {
    ghost Held: { Type 0 };

    ghost held: { Self → Held };

    ghost with_value: { Held → ℤ → Held };

    ghost leaves: { SinkFault → Held → ℤ → Held → Type 0 };

    ghost faults: { Self → ℕ };

    ghost is_sure: { Bool };

    ghost lender: { Self → ℕ };

    /// Takes a value, behind those that were taken before.
    fn value(&mut self, value: i64) -> Result<(), SinkFault>
        ensures taken { OnOk result (held self.new ≡ with_value (held self.old) value) }
        ensures refused { IfErr result (λ fault. leaves fault (held self.old) value (held self.new)) }
        ensures cause { HasCause Failed (faults self.old) (faults self.new) result }
        ensures sure { IsTrue is_sure → IsOk result }
        ensures lender { lender self.new ≡ lender self.old };
}
