// Numbers by their digits: hex digits of either case, bytes, words of sixteen digits, and decimal numbers.
ghost use Rattle.std.specs.Prelude.{◌≡◌, ◌/◌, min, length};
ghost use Rattle.questions.specs.Digits.{digit_of, are_hex, hex_number, bytes_in, with_digit, number_in};
ghost use Rattle.pages.specs.Pages.{Holds};

// A hex digit's value, and 16 for any other byte.
fn digit(b: u8) -> u8
    ensures { result ≡ digit_of b }
{
    match b {
        b'0'..=b'9' => b - b'0',
        b'A'..=b'F' => b - b'A' + 10,
        b'a'..=b'f' => b - b'a' + 10,
        _ => 16,
    }
}

// Whether all bytes are hex digits. The text is left as it was.
pub fn are_hex(text: &[u8]) -> bool
    ensures answered { result ≡ are_hex text.now }
    ensures kept { text.now ≡ text.now }
{
    text.iter().all(|&b| digit(b) < 16)
}

// The number that sixteen hex digits at most spell, and 0 where there are more. The text is left as it
// was.
pub fn word_in(text: &[u8]) -> u64
    ensures answered { result ≡ hex_number text.now }
    ensures kept { text.now ≡ text.now }
{
    if text.len() > 16 {
        return 0;
    }
    let mut value = 0;
    for &b in text {
        value = value * 16 + u64::from(digit(b) % 16);
    }
    value
}

// The bytes that a text spells, two hex digits each, at the start of the buffer, as many as it has room
// for; how many these are. The text is left as it was.
pub fn read_bytes(text: &[u8], out: &mut [u8]) -> usize
    ensures read { Holds (bytes_in (length out.old) text.now) out.new result }
    ensures kept { text.now ≡ text.now }
{
    let count = (text.len() / 2).min(out.len());
    for i in 0..count {
        out[i] = digit(text[2 * i]) % 16 * 16 + digit(text[2 * i + 1]) % 16;
    }
    count
}

// A number with one decimal digit more behind it.
fn with_digit(value: u64, b: u8) -> Option<u64>
    ensures { result ≡ with_digit value b }
{
    if !b.is_ascii_digit() {
        return None;
    }
    value.checked_mul(10)?.checked_add(u64::from(b - b'0'))
}

// The decimal number that a text spells, if it is one below 2^64. The text is left as it was.
pub fn number_in(text: &[u8]) -> Option<u64>
    ensures answered { result ≡ number_in text.now }
    ensures kept { text.now ≡ text.now }
{
    if text.is_empty() {
        return None;
    }
    let mut value = 0;
    for &b in text {
        value = with_digit(value, b)?;
    }
    Some(value)
}
