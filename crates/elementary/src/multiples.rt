// A word with the opposite sign, and a word times a constant.
ghost use Rattle.std.specs.Prelude.{◌≡◌, ◌^◌, ◌<◌, ◌≤◌, pos, ◌*ℤ◌, neg_ℤ};
ghost use Rattle.arithmetic.specs.Whole.{floor_div, word_value, as_word};
ghost use Rattle.arithmetic.specs.Places.{places};

use arithmetic::wide::{Wide, product, shifted_left, shifted_right, sum};
use arithmetic::word::{ONES, PLACES, WHOLE, Word};

// -w.
pub(crate) fn opposite(w: Word) -> Word
    requires { (w.whole < 2 ^ 31) × (w.part < 2 ^ places) }
    ensures { result ≡ as_word places (neg_ℤ (word_value places w)) }
{
    let (negative, whole, part) = match (w.negative, w.whole, w.part) {
        (true, whole, ONES) => (false, whole + 1, 0),
        (true, whole, part) => (false, whole, part + 1),
        (false, 0, 0) => (false, 0, 0),
        (false, whole, 0) => (true, whole - 1, ONES),
        (false, whole, part) => (true, whole, part - 1),
    };
    Word {
        negative,
        whole,
        part,
    }
}

// floor(w * factor / 2^shift). Where w is -(a + 1), the product is -(a * factor + factor), one
// below -(a * factor + factor - 1), so the digits are divided alike for both signs.
pub(crate) fn times(w: Word, factor: u64, shift: u32) -> Word
    requires { (w.whole < 2 ^ 12) × (w.part < 2 ^ places) × (0 < factor) × (58 ≤ shift) × (shift ≤ 62) }
    ensures { result ≡ as_word places (floor_div (word_value places w *ℤ pos factor) (2 ^ shift)) }
{
    let negative = w.negative;
    let extra = if negative { factor - 1 } else { 0 };
    let above = product(w.whole as u64, factor);
    let below = sum(product(w.part, factor), Wide { hi: 0, lo: extra });
    let quotient = shifted_right(above, shift);
    let rest = above.lo % (1u64 << shift);
    let carried = sum(shifted_left(Wide { hi: 0, lo: rest }, PLACES), below.word);
    let high = shifted_right(carried.word, shift + PLACES);
    let low = shifted_right(carried.word, shift);
    Word {
        negative,
        whole: (quotient.lo + high.lo) as u32,
        part: low.lo % WHOLE,
    }
}
