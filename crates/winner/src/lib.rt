// The winner of four counts of votes (acquire.rs of isdb-rs, `detect_sp_phase`): the phase with the most, its
// share of the votes, and its lead over the largest count of the other three.
#![tactic(auto)]

ghost use Rattle.std.specs.Prelude.{◌≡◌};
ghost use Rattle.winner.specs.Winner.{share_of, next_to, lead_of};
ghost use Rattle.winner.specs.Inner.{Won, Few};

// The phase with the most votes, the larger on a tie: `max_by_key` takes the last of equals.
pub fn won_by(counts: [u32; 4]) -> usize
    ensures { Won counts result }
{
    (0..4).max_by_key(|p| counts[*p]).unwrap_or(0)
}

// The largest of the counts of the phases other than p.
fn next_to(counts: [u32; 4], p: usize) -> u32
    ensures { result ≡ next_to counts p }
{
    (0..4)
        .filter(|q| *q != p)
        .map(|q| counts[q])
        .max()
        .unwrap_or(0)
}

// By how many votes the phase with the most leads.
#[tactic(auto, using(crate::specs::Facts::next_below), unfolding(crate::specs::Winner::lead_of))]
pub fn lead_of(counts: [u32; 4]) -> u32
    ensures { result ≡ lead_of counts }
{
    let won = won_by(counts);
    counts[won] - next_to(counts, won)
}

// The share of so many votes, of zero spectra as of one.
#[tactic(auto, using(crate::proofs::Shares::share_by))]
pub fn share_of(votes: u32, total: usize) -> f32
    requires { Few votes total }
    ensures { result ≡ share_of votes total }
{
    votes as f32 / total.max(1) as f32
}
