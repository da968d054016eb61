// The vote of three masts.
#![tactic(auto, unfolding(crate::specs::Lent::with_room))]

ghost use Rattle.std.specs.Prelude.{◌≡◌};
ghost use Rattle.refusal.specs.Outcomes.{outcome};
ghost use Rattle.vote.specs.Vote.{vote_outcome, vote};
ghost use Rattle.exports.specs.Lent.{with_room, status_of, left_in, figure_values, mark_or};
ghost use Rattle.exports.specs.Votes.{mast_in};

use crate::lent::{TOO_SHORT, put_answer};
use refusal::Refusal;
use refusal::judge::Figures;
use vote::answer::VoteRefusal;
use vote::masts::vote;

fn refused_mast(voted: Result<Figures, VoteRefusal>) -> u8
    ensures { result ≡ (vote_outcome voted).mast }
{
    match voted {
        Ok(_) => 0,
        Err(VoteRefusal::Mast(mast, _)) => mast,
        Err(VoteRefusal::Together(_)) => 0,
    }
}

fn answer_of(voted: Result<Figures, VoteRefusal>) -> Result<Figures, Refusal>
    ensures { outcome result ≡ (vote_outcome voted).outcome }
{
    match voted {
        Ok(figures) => Ok(figures),
        Err(VoteRefusal::Mast(_, refusal)) => Err(refusal),
        Err(VoteRefusal::Together(refusal)) => Err(refusal),
    }
}

// What `station_air_judge` says of the voted record, or the refusal of the first mast whose record is
// not accepted by itself, or 21. `mast` is then that mast's number, 1 to 3, and else 0. The records are
// left as they were, and so is the mark by a refusal.
pub fn station_air_vote(
    a: &[u8],
    b: &[u8],
    c: &[u8],
    lent: &mut [f64],
    in_range: &mut bool,
    mast: &mut u32,
) -> u32
    ensures value { result ≡ status_of (with_room 8 lent.old (vote a.now b.now c.now).outcome) }
    ensures lent_after { lent.new
        ≡ left_in figure_values lent.old (with_room 8 lent.old (vote a.now b.now c.now).outcome) }
    ensures in_range_after { in_range.new
        ≡ mark_or in_range.old (with_room 8 lent.old (vote a.now b.now c.now).outcome) }
    ensures mast_after { mast.new ≡ mast_in 8 lent.old mast.old (vote a.now b.now c.now) }
    ensures a_value { a.now ≡ a.now }
    ensures b_value { b.now ≡ b.now }
    ensures c_value { c.now ≡ c.now }
{
    if lent.len() < 8 {
        return TOO_SHORT;
    }
    let voted = vote(a, b, c);
    *mast = u32::from(refused_mast(voted));
    put_answer(lent, in_range, answer_of(voted))
}
