// How many records the program is asked for.
ghost use Rattle.std.specs.Prelude.{◌≡◌};
ghost use Rattle.load_text.specs.Asked.{whole_in, asked_in, load_asked_by};

use decimals::typed::{NotACount, read_decimal};

// As many as the acceptance bench takes.
const RECORDS: u32 = 10_000;

// A count of thousandths that is a whole number from 0 on.
fn whole_in(count: i32) -> Option<u32>
    ensures { result ≡ whole_in count }
{
    match u32::try_from(count) {
        Ok(thousandths) if thousandths % 1000 == 0 => Some(thousandths / 1000),
        _ => None,
    }
}

fn asked_in(typed: Result<i32, NotACount>) -> Option<u32>
    ensures { result ≡ asked_in typed }
{
    whole_in(typed.ok()?)
}

// How many are asked for by the words that the program was started with: how many words there are, its own
// name among them, and the one after its name. None where they ask for nothing that there is.
#[tactic(auto, unfolding(crate::specs::Asked::load_asked_by))]
pub fn asked_for(words: usize, word: &[u8]) -> Option<u32>
    ensures value { result ≡ load_asked_by words word.now }
    ensures kept { word.now ≡ word.now }
{
    match words {
        0 | 1 => Some(RECORDS),
        2 => asked_in(read_decimal(word, 3)),
        _ => None,
    }
}
