// Samples needed (acquire.rs of isdb-rs, `samples_needed`): how many samples a guard search must have to
// try every mode and guard of two lists of codes. What the search itself asks of these codes is here too.
#![tactic(auto)]

ghost use Rattle.std.specs.Prelude.{◌≡◌, map};
ghost use Rattle.lists.specs.Tests.{all_in};
ghost use Rattle.samples_needed.specs.Samples.{is_mode, is_guard, fft_of, needed_by, greatest, SamplesTold};
ghost use Rattle.samples_needed.specs.Inner.{Counted};

use params::{GuardInterval, Mode, Refusal};

// Whether each number of a list is a mode's.
pub fn are_modes(list: &[u8]) -> bool
    ensures { result ≡ all_in is_mode list.now }
{
    list.iter().all(|n| Mode::try_from(*n).is_ok())
}

// Whether each number of a list is a guard's denominator. A line each: one function for both takes a closure more.
pub fn are_guards(list: &[u8]) -> bool
    ensures { result ≡ all_in is_guard list.now }
{
    list.iter()
        .all(|d| GuardInterval::try_from(*d as usize).is_ok())
}

// The FFT size of a mode's number, and 0 for a number that is no mode's.
// 0, as in the definition: an Option is no plainer, since every caller has tested its modes, and computes with the
// size at once.
pub fn fft_of(mode: u8) -> usize
    ensures { result ≡ fft_of mode }
{
    Mode::try_from(mode).map_or(0, Mode::fft_size)
}

// The most samples that a mode needs with any of the guards.
fn mode_needs(mode: u8, guards: &[u8], symbols: usize) -> usize
    requires { Counted guards.now symbols }
    ensures { result ≡ greatest (map (needed_by symbols mode) guards.now) }
{
    let n = fft_of(mode);
    guards
        .iter()
        .map(|guard| (symbols + 1) * (n + n / *guard as usize) + n)
        .max()
        .unwrap_or(0)
}

// Samples that `guess::detect_mode` needs to try every mode and guard with at least `symbols` symbols. Modes
// and guards are two lists, since a C host lends two.
//
// Refused by 1 for a bad mode, 9 for a bad guard, 10 for more than 64 symbols. Empty lists give 0.
pub fn samples_needed(modes: &[u8], guards: &[u8], symbols: usize) -> Result<usize, Refusal>
    ensures { SamplesTold modes.now guards.now symbols result }
{
    // `guess` has the next two tests too: one function for both would need a code of its own in specs/, and each
    // caller a law that puts its later refusals behind that code.
    if !are_modes(modes) {
        return Err(Refusal::BadMode);
    }
    if !are_guards(guards) {
        return Err(Refusal::BadGuard);
    }
    if symbols > 64 {
        return Err(Refusal::TooWide);
    }
    let most = modes
        .iter()
        .map(|mode| mode_needs(*mode, guards, symbols))
        .max()
        .unwrap_or(0);
    Ok(most)
}
