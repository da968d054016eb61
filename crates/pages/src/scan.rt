// Bytes looked for.
ghost use Rattle.pages.specs.Scan.{index_of, slice};
ghost use Rattle.std.specs.Prelude.{◌+◌, ◌≡◌, ◌≤◌, length};

// The position of the first such byte from one position up to another, which it is where there is none.
pub fn find(s: &[u8], from: usize, to: usize, byte: u8) -> usize
    requires { (from ≤ to) × (to ≤ length s.now) }
    ensures found { result ≡ from + index_of byte (slice from to s.now) }
    ensures within { result ≤ to }
{
    match s[from..to].iter().position(|&b| b == byte) {
        Some(i) => from + i,
        None => to,
    }
}
