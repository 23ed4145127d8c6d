// The definitions computed on small blocks.
ghost use Rattle.std.specs.Prelude.{◌≡◌, ◌∷◌, [], true, false, None, Some, slice_get, pos};
ghost use Rattle.bm_base.specs.Memory.{Word};
ghost use Rattle.tuple_ir.specs.Conflict.{clash};
ghost use Rattle.tuple_ir.specs.Serial.{outcome};
ghost use Rattle.tuple_ir.specs.Examples.{sum_tuples, sum_blocks, array_tuples, loop_blocks, zero_memory};

/// The serial meaning of `x = 2 + 3; print x;`, and of `while x < 2 { print x; x = x + 1; }`.
pub fn serial_examples()
    ensures printed { (outcome sum_blocks zero_memory 1).world.output ≡ pos 5 ∷ [] }
    ensures stored { (outcome sum_blocks zero_memory 1).world.memory ≡ Word (pos 5) ∷ [] }
    ensures ended { (outcome sum_blocks zero_memory 1).next ≡ None }
    ensures not_begun { (outcome sum_blocks zero_memory 0).next ≡ Some 0 }
    ensures loop_trail { (outcome loop_blocks zero_memory 9).trail ≡ 0 ∷ 1 ∷ 2 ∷ 1 ∷ 2 ∷ 1 ∷ 3 ∷ [] }
    ensures loop_printed { (outcome loop_blocks zero_memory 9).world.output ≡ pos 0 ∷ pos 1 ∷ [] }
    ensures loop_stored { (outcome loop_blocks zero_memory 9).world.memory ≡ Word (pos 2) ∷ [] }
    ensures loop_ended { (outcome loop_blocks zero_memory 7).next ≡ None }
    ensures loop_not_ended { (outcome loop_blocks zero_memory 6).next ≡ Some 3 }
{}

/// Conflicts of `x = 2 + 3; print x;` and of writes and reads of an array: two stores at different
/// constant places do not conflict, two at one place do, and one at a computed place does.
pub fn conflict_examples()
    ensures operand { clash sum_tuples 0 (slice_get sum_tuples 0) (slice_get sum_tuples 2) ≡ true }
    ensures variable { clash sum_tuples 3 (slice_get sum_tuples 3) (slice_get sum_tuples 4) ≡ true }
    ensures constants { clash sum_tuples 0 (slice_get sum_tuples 0) (slice_get sum_tuples 1) ≡ false }
    ensures different_places { clash array_tuples 2 (slice_get array_tuples 2) (slice_get array_tuples 5) ≡ false }
    ensures same_place { clash array_tuples 2 (slice_get array_tuples 2) (slice_get array_tuples 10) ≡ true }
    ensures computed_place { clash array_tuples 5 (slice_get array_tuples 5) (slice_get array_tuples 7) ≡ true }
    ensures after_a_load { clash array_tuples 7 (slice_get array_tuples 7) (slice_get array_tuples 10) ≡ true }
{}
