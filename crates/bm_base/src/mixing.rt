// The mixing of 64 bits.
ghost use Rattle.std.specs.Prelude.{◌≡◌};
ghost use Rattle.bm_base.specs.Mixing as spec;

/// The 64 bits mixed: the finaliser of SplitMix64 (Steele, Lea and Flood, 'Fast splittable
/// pseudorandom number generators', OOPSLA 2014), with the constants of David Stafford's thirteenth
/// mixer.
pub fn mixed(bits: u64) -> u64
    ensures { result ≡ spec.mixed bits }
{
    let first = (bits ^ (bits >> 30)).wrapping_mul(0xBF58_476D_1CE4_E5B9);
    let second = (first ^ (first >> 27)).wrapping_mul(0x94D0_49BB_1331_11EB);
    second ^ (second >> 31)
}
