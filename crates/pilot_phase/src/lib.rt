// The scattered-pilot phase (acquire.rs of isdb-rs, `detect_sp_phase`). Every spectrum votes for the phase
// of symbol 0 by its ballot, turned back; the votes are counted, and the phase with the most is answered.
// Symbols that were not heard vote too, as in the Rust, but the lead is worked out without them:
// recordings begin before the carrier is up.
#![tactic(auto)]

ghost use Rattle.std.specs.Prelude.{◌≡◌, length};
ghost use Rattle.params.specs.Params.{mode_from, total_carriers, kind_codes};
ghost use Rattle.spectra.specs.Spectra.{are_spectra};
ghost use Rattle.prbs.specs.Signs.{band_signs};
ghost use Rattle.ballots.specs.Ballots.{ballots};
ghost use Rattle.pilot_phase.specs.PilotPhase.{PhaseDetected};
ghost use Rattle.pilot_phase.specs.Inner.{Whole, VoteCountsOf, Counted, told, pilot_answer};

use frame::FrameLayout;
use params::{Mode, Refusal};

// The phase of symbol 0, and the share of the votes for it. Symbol j has phase (phase + j) % 4.
// No `Phase`: specs/ works it out of counts, and would have to prove it below 4 beside the definition.
#[derive(Clone, Copy)]
pub struct PilotPhase {
    pub phase: u8,
    pub share: f32,
}

// The phase, if there are scattered pilots; the four counts; and of the counts of the symbols that were
// heard, the largest less the largest of the others.
#[derive(Clone, Copy)]
pub struct PilotAnswer {
    pub phase: Option<PilotPhase>,
    pub counts: [u32; 4],
    pub lead: u32,
}

// How many votes each phase of symbol 0 has: of all symbols, and of those that were heard.
#[derive(Clone, Copy)]
pub struct VoteCounts {
    pub all: [u32; 4],
    pub heard: [u32; 4],
}

// What the counts of the votes of `total` spectra tell.
fn counted(counts: VoteCounts, total: usize) -> PilotAnswer
    requires { Counted counts.all total }
    ensures { result ≡ told counts total }
{
    let all = counts.all;
    let heard = counts.heard;
    let won = winner::won_by(all);
    let share = winner::share_of(all[won], total);
    PilotAnswer {
        phase: Some(PilotPhase {
            phase: won as u8,
            share,
        }),
        counts: all,
        lead: winner::lead_of(heard),
    }
}

// Spectra of a layout, whole ones.
#[derive(Clone, Copy)]
struct Recording<'a> {
    layout: FrameLayout,
    spectra: &'a [f32],
    ghost whole: { Whole layout.mode (length spectra.now) },
}

impl Recording<'_> {
    // The votes of all spectra, and of those that were heard, counted by the signs of the carriers.
    fn count_votes(&self, signs: &[u8]) -> VoteCounts
        requires { signs.now ≡ band_signs self.now.layout.mode }
        ensures { VoteCountsOf (ballots self.now.layout.mode (kind_codes self.now.layout.kinds) self.now.spectra.now) result }
    {
        let mode = self.layout.mode;
        let w = 2 * mode.total_carriers();
        let mut all = [0u32; 4];
        let mut heard = [0u32; 4];
        // By numbers: the proof over `chunks_exact(w).enumerate()` did not close.
        for j in 0..self.spectra.len() / w {
            let from = j * w;
            let ballot = ballots::ballot_of(self.layout, &self.spectra[from..from + w], signs);
            let vote = (ballot.choice as usize + 4 - j % 4) % 4;
            all[vote] += 1;
            heard[vote] += u32::from(ballot.heard);
        }
        VoteCounts { all, heard }
    }

    // The same, by the signs of the band, which stand in the front of a buffer with room for every mode:
    // nothing is allocated.
    fn band_votes(&self) -> VoteCounts
        ensures { VoteCountsOf (ballots self.now.layout.mode (kind_codes self.now.layout.kinds) self.now.spectra.now) result }
    {
        let mode = self.layout.mode;
        let k = mode.total_carriers();
        let mut buffer = [0u8; 5617];
        prbs::band_w(mode, &mut buffer[..k]);
        self.count_votes(&buffer[..k])
    }

    // What an accepted call answers: where no segment is coherent, there are no scattered pilots, and
    // nothing is counted.
    fn answer(&self) -> PilotAnswer
        ensures { result ≡ pilot_answer self.now.layout.mode (kind_codes self.now.layout.kinds) self.now.spectra.now }
    {
        if !ballots::has_pilots(self.layout) {
            return PilotAnswer {
                phase: None,
                counts: [0; 4],
                lead: 0,
            };
        }
        let w = 2 * self.layout.mode.total_carriers();
        counted(self.band_votes(), self.spectra.len() / w)
    }
}

// Whether n floats are whole spectra, at most 1,024.
fn are_whole(mode: Mode, n: usize) -> bool
    ensures { result ≡ are_spectra (total_carriers mode) n }
{
    let w = 2 * mode.total_carriers();
    n % w == 0 && n / w <= 1024
}

// The phase of symbol 0, with its share of the votes, the counts and the lead. The answer of an
// accepted call in which no segment is coherent is that there are no scattered pilots. Mode and kinds are
// numbers, as a C host lends them.
//
// Refused by 1 for a bad mode, 2 unless there are thirteen kinds of 0 or 1, 5 unless whole spectra of
// k_total carriers, 0 to 1,024.
pub fn detect_sp_phase(mode: u8, kinds: &[u8], spectra: &[f32]) -> Result<PilotAnswer, Refusal>
    ensures { PhaseDetected (mode_from mode) kinds.now spectra.now result }
{
    let layout = FrameLayout::new(mode, kinds)?;
    if !are_whole(layout.mode, spectra.len()) {
        return Err(Refusal::NotWhole);
    }
    let recording = Recording { layout, spectra };
    Ok(recording.answer())
}
