// A double by its kind, with its sign, which is true where it is negative.
// `Finite(s, q, k)` is q * 2^(k - 1074), or -q * 2^(k - 1074) where s is true.
#[derive(Clone, Copy, Debug, PartialEq, Eq)]
pub enum Parts {
    NotANumber,
    Infinite(bool),
    Zero(bool),
    Finite(bool, u64, u32),
}
