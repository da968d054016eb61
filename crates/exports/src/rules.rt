// The rules that only tests call: the log word, the antilog, and the power by its exponent's number. A
// log word travels as its three numbers.
ghost use Rattle.std.specs.Prelude.{◌≡◌};
ghost use Rattle.arithmetic.specs.Places.{places};
ghost use Rattle.arithmetic.specs.Whole.{word_value};
ghost use Rattle.antilog.specs.Log.{logarithm};
ghost use Rattle.antilog.specs.Antilog as Antilog;
ghost use Rattle.elementary.specs.Power.{power_at};
ghost use Rattle.exports.specs.Words.{word_of_numbers, is_defined, word_or};

use antilog::antilog::antilog;
use arithmetic::word::Word;
use elementary::log::log_word;
use elementary::power::power;

// Whether x has a log word. Where it has none, the three numbers stay as they are.
pub fn station_air_log_word(x: f64, negative: &mut bool, whole: &mut u32, part: &mut u64) -> bool
    ensures value { result ≡ is_defined (logarithm places x) }
    ensures part_after { word_of_numbers negative.new whole.new part.new
        ≡ word_or (word_of_numbers negative.old whole.old part.old) (logarithm places x) }
{
    match log_word(x) {
        Some(w) => {
            *negative = w.negative;
            *whole = w.whole;
            *part = w.part;
            true
        }
        None => false,
    }
}

// 2 to the power of a word.
pub fn station_air_antilog(negative: bool, whole: u32, part: u64) -> f64
    ensures { result ≡ Antilog.antilog places (word_value places (word_of_numbers negative whole part)) }
{
    antilog(Word {
        negative,
        whole,
        part,
    })
}

// x to the power of the exponent with a number, and NaN where there is none.
pub fn station_air_power(x: f64, number: usize) -> f64
    ensures { result ≡ power_at places number x }
{
    power(x, number)
}
