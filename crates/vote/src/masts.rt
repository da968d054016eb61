// The vote of three masts: the masts one after the other, then the fields that they share, then the
// judge.
ghost use Rattle.std.specs.Prelude.{◌≡◌};
ghost use Rattle.refusal.specs.Outcomes.{outcome};
ghost use Rattle.vote.specs.Vote.{accepted_readings, voted_outcome, vote_outcome, vote};

use crate::answer::VoteRefusal;
use crate::by_field::{any_not_in_all, voted};
use mast::judge::judge_readings;
use record::entries::Readings;
use record::readings::read_record;
use refusal::Refusal;
use refusal::judge::Figures;

// The readings of a record that is accepted by itself, or its refusal.
#[tactic(auto, unfolding(crate::specs::Vote::accepted_readings))]
fn accepted_readings(bytes: &[u8]) -> Result<Readings, Refusal>
    ensures { outcome result ≡ accepted_readings bytes.now }
{
    let readings = read_record(bytes)?;
    judge_readings(readings)?;
    Ok(readings)
}

// What the readings of three records give together: that a field is not in all of them, or what the
// judge says of the voted readings.
#[tactic(auto, unfolding(crate::specs::Vote::voted_outcome))]
fn vote_readings(a: Readings, b: Readings, c: Readings) -> Result<Figures, Refusal>
    ensures { outcome result ≡ voted_outcome a b c }
{
    if any_not_in_all(a, b, c) {
        return Err(Refusal::FieldNotInAll);
    }
    judge_readings(voted(a, b, c))
}

// What three records give together: the figures of the voted readings, or the refusal of the first
// mast whose record is not accepted by itself, or that of the vote. The records are left as they were.
#[tactic(auto, unfolding(crate::specs::Vote::vote))]
pub fn vote(a: &[u8], b: &[u8], c: &[u8]) -> Result<Figures, VoteRefusal>
    ensures { vote_outcome result ≡ vote a.now b.now c.now }
{
    let first = accepted_readings(a).map_err(|refusal| VoteRefusal::Mast(1, refusal))?;
    let second = accepted_readings(b).map_err(|refusal| VoteRefusal::Mast(2, refusal))?;
    let third = accepted_readings(c).map_err(|refusal| VoteRefusal::Mast(3, refusal))?;
    vote_readings(first, second, third).map_err(VoteRefusal::Together)
}
