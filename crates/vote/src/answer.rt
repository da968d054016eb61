// Why a vote is refused.
use refusal::Refusal;

#[derive(Clone, Copy)]
pub enum VoteRefusal {
    // a mast, 1 to 3, and the refusal of its record
    Mast(u8, Refusal),
    // the refusal of the three records together, or of the voted readings
    Together(Refusal),
}
