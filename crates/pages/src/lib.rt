// Pieces of a text on a page, one after the other. A page that is full takes no more.
#![tactic(auto, using(crate::proofs::Putting::puts))]

pub mod digits;
pub mod scan;

ghost use Rattle.std.specs.Prelude.{◌≡◌, ◌%◌, take};
ghost use Rattle.pages.specs.Characters.{hex_digit, hex, number_text, refusal_line};
ghost use Rattle.pages.specs.Pages.{page_from, put};

// The bytes of a page, and the position up to which there is text on them. What is put on it stands from
// there on, as much of it as there is room for.
#[derive(Drop)]
pub struct Page<'a> {
    bytes: &'a mut [u8],
    at: usize,
}

impl<'a> Page<'a> {
    // A page with no text on it yet.
    pub fn new(bytes: &'a mut [u8]) -> Page<'a>
        ensures { result ≡ page_from bytes.entry 0 }
    {
        Page { bytes, at: 0 }
    }

    // A page whose next piece stands from `at` on.
    pub fn from_position(bytes: &'a mut [u8], at: usize) -> Page<'a>
        ensures { result ≡ page_from bytes.entry at }
    {
        Page { bytes, at }
    }

    // The position after the last piece.
    pub fn position(&self) -> usize
        ensures { result ≡ self.now.at }
    {
        self.at
    }

    // A piece, as much of it as there is room for. It is left as it was.
    pub fn put(&mut self, piece: &[u8])
        ensures put { self.new ≡ put self.old piece.now }
        ensures kept { piece.now ≡ piece.now }
    {
        if self.bytes.len() <= self.at {
            return;
        }
        let fitting = fitting(piece, self.bytes.len() - self.at);
        let end = self.at + fitting.len();
        self.bytes[self.at..end].copy_from_slice(fitting);
        self.at = end;
    }

    // Two hex digits for each byte. The bytes are left as they were.
    #[tactic(auto, using(crate::proofs::Putting::puts, crate::proofs::Hexed::hexed))]
    pub fn put_hex(&mut self, bytes: &[u8])
        ensures put { self.new ≡ put self.old (hex bytes.now) }
        ensures kept { bytes.now ≡ bytes.now }
    {
        for &byte in bytes {
            self.put(&[hex_digit(byte / 16), hex_digit(byte)]);
        }
    }

    // A number below 100.
    pub fn put_number(&mut self, n: u8)
        ensures { self.new ≡ put self.old (number_text n) }
    {
        if n < 10 {
            self.put(&[b'0' + n]);
        } else {
            self.put(&[b'0' + n / 10, b'0' + n % 10]);
        }
    }

    // The line of a refusal, by its number.
    #[tactic(auto, using(crate::proofs::Putting::puts), unfolding(crate::specs::Characters::refusal_line))]
    pub fn put_refusal(&mut self, number: u8)
        ensures { self.new ≡ put self.old (refusal_line number) }
    {
        self.put(b"refused ");
        self.put_number(number);
        self.put(b"\n");
    }
}

fn fitting(piece: &[u8], room: usize) -> &[u8]
    ensures { result.now ≡ take room piece.now }
{
    &piece[..room.min(piece.len())]
}

// The digit of a number's last four bits, in upper case.
pub fn hex_digit(n: u8) -> u8
    ensures { result ≡ hex_digit (n % 16) }
{
    let digit = n % 16;
    if digit < 10 {
        b'0' + digit
    } else {
        b'A' - 10 + digit
    }
}
