// A word of 64 bits as sixteen hex digits.
ghost use Rattle.std.specs.Prelude.{◌≡◌, ◌-◌, ◌*◌, ◌/◌, ◌%◌, ◌^◌, ◌<◌};
ghost use Rattle.pages.specs.Characters.{hex_digit, hex_digits};
ghost use Rattle.pages.specs.Pages.{put};

use crate::{Page, hex_digit};

// Digit i of sixteen.
fn digit_at(n: u64, i: usize) -> u8
    requires { i < 16 }
    ensures { result ≡ hex_digit (n / 2 ^ (4 * (15 - i)) % 16) }
{
    hex_digit(((n >> (4 * (15 - i))) % 16) as u8)
}

fn digits_of(n: u64) -> [u8; 16]
    ensures { result ≡ hex_digits 16 n }
{
    let mut digits = [0u8; 16];
    for i in 0..16 {
        digits[i] = digit_at(n, i);
    }
    digits
}

impl Page<'_> {
    pub fn put_digits(&mut self, n: u64)
        ensures { self.new ≡ put self.old (hex_digits 16 n) }
    {
        self.put(&digits_of(n));
    }
}
