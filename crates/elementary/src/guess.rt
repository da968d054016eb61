// The bits of a logarithm, guessed and checked. The guess is any arithmetic and promises nothing; the
// check is what an answer may rest on.
mod table;

ghost use Rattle.elementary.specs.Base.{Neared};

use crate::guess::table::{logarithm, reciprocal};
use crate::log::Units;
use antilog::near_bits::within_two;
use arithmetic::wide::product;
use std::num::{wrapping_add_u64, wrapping_sub_u64};

// 1 / ln 2 in units of 2^-63, and 1 / (j ln 2) in units of 2^-64 for j from 2 to 8
const FIRST: u64 = 0xB8AA_3B29_5C17_F0BB;

const SECOND: u64 = 0xB8AA_3B29_5C17_F0BB;

const THIRD: u64 = 0x7B1C_2770_E80F_F5D2;

const FOURTH: u64 = 0x5C55_1D94_AE0B_F85D;

const FIFTH: u64 = 0x49DD_B143_BE6F_F9E4;

const SIXTH: u64 = 0x3D8E_13B8_7407_FAE9;

const SEVENTH: u64 = 0x34C2_EC54_F5BD_B27E;

const EIGHTH: u64 = 0x2E2A_8ECA_5705_FC2E;

fn upper(a: u64, b: u64) -> u64 {
    let both = product(a, b);
    both.hi
}

// c - w * d, with w in units of 2^-70.
fn next(c: u64, w: u64, d: u64) -> u64 {
    wrapping_sub_u64(c, upper(w, d) >> 6)
}

// The logarithm of m / 2^63 in units of 2^-64, for an m of 64 bits: that of a near entry, and of what is
// left, 1 + w with w below 2^-6, by eight terms of its series.
fn guessed_logarithm(m: u64) -> u64 {
    let i = (m >> 56) % 128;
    let left = product(m, reciprocal(i));
    let w = wrapping_add_u64(wrapping_sub_u64(left.hi, 0x8000) << 55, left.lo >> 9);
    let fifth = next(FIFTH, w, next(SIXTH, w, next(SEVENTH, w, EIGHTH)));
    let second = next(SECOND, w, next(THIRD, w, next(FOURTH, w, fifth)));
    let above = wrapping_add_u64(logarithm(i), upper(w, FIRST) >> 5);
    wrapping_sub_u64(above, upper(upper(w, w), second) >> 12)
}

// Bits that the log bits lie from to two more, where they are known to: mostly a unit or so above those
// that are guessed.
pub(crate) fn near_bits(units: Units) -> Option<u64>
    ensures { Neared units.q units.k result }
{
    let m = units.mantissa();
    let bits = wrapping_sub_u64(guessed_logarithm(2 * m), 23) >> 4;
    within_two(m, bits).then_some(bits)
}
