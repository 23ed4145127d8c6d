// Offsets from a seed.
ghost use Rattle.std.specs.Prelude.{◌≡◌};
ghost use Rattle.timing_script.specs.Script.{seed_offset};

use bm_base::mixed;

/// What a processor's number, from 1, is multiplied by: 2^64 over the golden ratio.
const PROCESSOR_WEIGHT: u64 = 0x9E37_79B9_7F4A_7C15;

/// What a count of starts is multiplied by.
const START_WEIGHT: u64 = 0xBF58_476D_1CE4_E5B9;

/// The offset that a seed gives the `k`-th instruction that a processor starts.
pub(crate) fn offset_by_seed(seed: u64, processor: u8, k: u64) -> u64
    ensures { result ≡ seed_offset seed processor k }
{
    let place = PROCESSOR_WEIGHT.wrapping_mul(u64::from(processor) + 1);
    mixed(
        seed.wrapping_add(place)
            .wrapping_add(k.wrapping_mul(START_WEIGHT)),
    )
}
