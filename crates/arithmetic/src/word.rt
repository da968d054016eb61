// A whole number in units of 2^-60, as logarithms are: digits above and below the point travel
// apart, since together they can pass 64 bits.

// the number of places, as specs/Places has it; a whole in units of the last place, and one unit less
pub const PLACES: u32 = 60;

pub const WHOLE: u64 = 1 << PLACES;

pub const ONES: u64 = WHOLE - 1;

// a = `whole` * 2^60 + `part` stands for a, and where `negative` for -(a + 1).
#[derive(Clone, Copy, Debug, PartialEq, Eq)]
pub struct Word {
    pub negative: bool,
    pub whole: u32,
    pub part: u64,
}
