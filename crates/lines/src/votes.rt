// The vote of three masts.
#![tactic(auto, using(pages::proofs::Putting::puts), unfolding(crate::specs::Votes::mast_text, crate::specs::Votes::vote_text))]

ghost use Rattle.std.specs.Prelude.{◌≡◌, ◌++◌};
ghost use Rattle.refusal.specs.Refusals.{number_of};
ghost use Rattle.pages.specs.Characters.{refusal_line};
ghost use Rattle.pages.specs.Pages.{put};
ghost use Rattle.vote.specs.Vote.{vote};
ghost use Rattle.lines.specs.Votes.{mast_text, vote_text};

use crate::value_lines::put_whole;
use pages::Page;
use refusal::Refusal;
use text::answer_lines::{put_figures, put_refusal};
use vote::answer::VoteRefusal;
use vote::masts::vote;

// The mast whose record is refused, and the refusal.
fn put_mast(page: &mut Page<'_>, mast: u8, refusal: Refusal)
    ensures { page.new ≡ put page.old (mast_text mast ++ refusal_line (number_of refusal)) }
{
    if mast == 0 {
        return put_refusal(page, refusal);
    }
    page.put(b"mast ");
    put_whole(page, mast);
    page.put(b" ");
    put_refusal(page, refusal);
}

// What three records give together. They are left as they were.
pub(crate) fn put_vote(page: &mut Page<'_>, a: &[u8], b: &[u8], c: &[u8])
    ensures put { page.new ≡ put page.old (vote_text (vote a.now b.now c.now)) }
    ensures first_kept { a.now ≡ a.now }
    ensures second_kept { b.now ≡ b.now }
    ensures third_kept { c.now ≡ c.now }
{
    match vote(a, b, c) {
        Ok(figures) => put_figures(page, figures),
        Err(VoteRefusal::Mast(mast, refusal)) => put_mast(page, mast, refusal),
        Err(VoteRefusal::Together(refusal)) => put_refusal(page, refusal),
    }
}
