// Mode, guard interval and symbol timing from guard-interval autocorrelation (acquire.rs of isdb-rs,
// `detect_mode`): the search over modes, guards and offsets. Samples are lent flat, real and imaginary
// part in turn; modes and guards are lists of codes, tried in the order given.
#![tactic(auto)]

ghost use Rattle.std.specs.Prelude.{◌≡◌};
ghost use Rattle.params.specs.Params.{code_of};
ghost use Rattle.guess.specs.Guess.{tried_mode, guessed, guess_code, Searched};
ghost use Rattle.guess.specs.Inner.{guess_of, better_of, Tried, Triable, AllTriable};

use complex::C64;
use correlation::Window;
use params::Refusal;

// A guess: codes of mode and guard, the offset of a guard's start, the metric, and the summed
// correlation.
// Codes, since the C host lends codes and is handed them back: types here would only be made into codes again.
#[derive(Clone, Copy)]
pub struct ModeGuess {
    pub mode: u8,
    pub guard: u8,
    pub offset: usize,
    pub metric: f64,
    pub correlation: C64,
}

// The better of the best so far and the guess at an offset.
fn offer(best: Option<ModeGuess>, mode: u8, guard: u8, d: usize, w: Window) -> Option<ModeGuess>
    ensures { result ≡ better_of best w.energy (guess_of mode guard d w) }
{
    if w.energy <= 0.0 {
        return best;
    }
    let metric = w.correlation.norm() / w.energy;
    if let Some(guess) = best {
        if !(metric > guess.metric) {
            return best;
        }
    }
    Some(ModeGuess {
        mode,
        guard,
        offset: d,
        metric,
        correlation: w.correlation,
    })
}

// Every offset of a guard, where five of its symbols fit.
#[tactic(auto, unfolding(crate::specs::Guess::tried_guard, crate::specs::Guess::scan))]
fn try_guard(
    sums: &[f64],
    mode: u8,
    guard: u8,
    len: usize,
    start: Option<ModeGuess>,
) -> Option<ModeGuess>
    requires { Triable sums.now guard len }
    ensures { Tried sums.now mode guard len start result }
{
    let n = samples_needed::fft_of(mode);
    let ng = n / guard as usize;
    let p = n + ng;
    if len < ng + 4 * p {
        return start;
    }
    let mut best = start;
    for d in 0..p {
        let w = correlation::window_at(sums, ng, p, len, d);
        best = offer(best, mode, guard, d, w);
    }
    best
}

// Every guard of a mode, where there are samples n apart.
#[tactic(auto, unfolding(crate::specs::Guess::tried_mode, crate::specs::Guess::scan))]
fn try_mode(
    samples: &[f32],
    mode: u8,
    guards: &[u8],
    scratch: &mut [f64],
    start: Option<ModeGuess>,
) -> Option<ModeGuess>
    requires { AllTriable samples.now guards.now scratch.old }
    ensures { result ≡ tried_mode samples.now guards.now start mode }
{
    let n = samples_needed::fft_of(mode);
    let pairs = samples.len() / 2;
    if pairs <= n {
        return start;
    }
    correlation::write_prefixes(samples, n, scratch);
    let mut best = start;
    for guard in guards {
        best = try_guard(scratch, mode, *guard, pairs - n, best);
    }
    best
}

// Every mode. Modes and guards are two lists, since a C host lends two. Samples, lists and scratch go
// together through these functions, and a C host lends each by itself: one struct of them is no plainer.
#[tactic(auto, unfolding(crate::specs::Guess::guessed, crate::specs::Guess::scan))]
fn search(samples: &[f32], modes: &[u8], guards: &[u8], scratch: &mut [f64]) -> Option<ModeGuess>
    requires { AllTriable samples.now guards.now scratch.old }
    ensures { result ≡ guessed samples.now modes.now guards.now }
{
    let mut best = None;
    for mode in modes {
        best = try_mode(samples, *mode, guards, scratch, best);
    }
    best
}

// Whether a call is taken, or why not.
#[tactic(auto, unfolding(crate::specs::Guess::guess_code))]
fn accept(modes: &[u8], guards: &[u8], floats: usize, scratch: usize) -> Result<(), Refusal>
    ensures { code_of result ≡ guess_code modes.now guards.now floats scratch }
{
    if !samples_needed::are_modes(modes) {
        return Err(Refusal::BadMode);
    }
    if !samples_needed::are_guards(guards) {
        return Err(Refusal::BadGuard);
    }
    if floats % 2 != 0 {
        return Err(Refusal::NotWhole);
    }
    let pairs = floats / 2;
    if pairs > 1048576 {
        return Err(Refusal::NotWhole);
    }
    if scratch < 3 * (pairs + 1) {
        return Err(Refusal::WrongLength);
    }
    Ok(())
}

// The guard search. The scratch holds prefix sums, three numbers a sample, and is zeros afterwards.
//
// Refused by 1 for a bad mode in the list, 9 for a bad guard, 5 for an odd length or more than
// 1,048,576 pairs, 7 unless the scratch has 3 x (pairs + 1) entries or more.
#[tactic(auto, unfolding(crate::specs::Guess::guess_answer, crate::specs::Guess::guess_code, crate::specs::Guess::scratch_leaves))]
pub fn detect_mode(
    samples: &[f32],
    modes: &[u8],
    guards: &[u8],
    scratch: &mut [f64],
) -> Result<Option<ModeGuess>, Refusal>
    ensures { Searched samples.now modes.now guards.now scratch.old result scratch.new }
{
    accept(modes, guards, samples.len(), scratch.len())?;
    let best = search(samples, modes, guards, scratch);
    scratch.fill(0.0);
    Ok(best)
}
