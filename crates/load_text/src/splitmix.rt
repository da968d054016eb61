// SplitMix64, from state 0: a state that grows by a constant, and an output mixed from it, all modulo
// 2^64.
#![tactic(auto, unfolding(crate::specs::SplitMix::mixed, crate::specs::SplitMix::state_after))]

ghost use Rattle.std.specs.Prelude.{◌≡◌, ◌*◌, ◌%◌, ◌^◌};
ghost use Rattle.load_text.specs.SplitMix.{advanced, state_after, mixed};

use arithmetic::wide::product;
use std::num::wrapping_add_u64;

const INCREMENT: u64 = 0x9E37_79B9_7F4A_7C15;

const FIRST_FACTOR: u64 = 0xBF58_476D_1CE4_E5B9;

const SECOND_FACTOR: u64 = 0x94D0_49BB_1331_11EB;

// The product of two words modulo 2^64.
pub fn wrapping_mul(a: u64, b: u64) -> u64
    ensures { result ≡ a * b % 2 ^ 64 }
{
    let whole = product(a, b);
    whole.lo
}

// The next state.
pub fn grown(state: u64) -> u64
    ensures { result ≡ advanced state }
{
    wrapping_add_u64(state, INCREMENT)
}

// The state after so many outputs, without going through those before it.
pub fn state_after(outputs: u64) -> u64
    ensures { result ≡ state_after outputs }
{
    wrapping_mul(outputs, INCREMENT)
}

// The output of a grown state.
pub fn mixed(z: u64) -> u64
    ensures { result ≡ mixed z }
{
    let first = wrapping_mul(z ^ (z >> 30), FIRST_FACTOR);
    let second = wrapping_mul(first ^ (first >> 27), SECOND_FACTOR);
    second ^ (second >> 31)
}
