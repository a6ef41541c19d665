// The estimate of the channel at one carrier, after chanest.rs of isdb-rs (`ls_line_at_zero`): a straight
// line by least squares through the carrier's values at the times of its pilot, at the current symbol.
#![tactic(auto)]

ghost use Rattle.std.specs.Prelude.{◌≡◌, map, ◌<◌, length};
ghost use Rattle.complex.specs.Complex.{of32};
ghost use Rattle.pilot_times.specs.Inner.{spectra_of, Inside, Timed};
ghost use Rattle.pilot_line.specs.Line.{mean_pair, slope_sum};
ghost use Rattle.pilot_line.specs.Estimate.{points_in, estimate_of, inverse_of};
ghost use Rattle.pilot_line.specs.Inner.{Spanned, Fitting, value_in};

use complex::C32;
use ofdm::BandCarrier;
use pilot_times::{Times, Window};

// 1.0 divided by the pilots' amplitude, as f32.
const INVERSE_AMPLITUDE: f32 = 0.75;

// 1.0 divided by the pilot of a sign. `pilots::pilot_value` tests the sign too: a function for both would be handed
// the amplitude, and would be as long as the test.
fn inverse_pilot(sign: u8) -> f32
    ensures { result ≡ inverse_of sign }
{
    if sign == 0 {
        INVERSE_AMPLITUDE
    } else {
        -INVERSE_AMPLITUDE
    }
}

// A carrier's values in the spectra of a window, each times `inverse`, which takes its pilot off, and the
// times of its pilot.
#[derive(Clone, Copy)]
struct CarrierValues<'a> {
    win: Window,
    spectra: &'a [f32],
    k: BandCarrier,
    inverse: f32,
    times: Times,
    ghost spanned: { Spanned win (length spectra.now) },
    ghost carrier: { k.0 < win.len },
    ghost inside: { Inside win.count times.sent },
    ghost timed: { Timed win times },
}

impl CarrierValues<'_> {
    // The value in spectrum s.
    fn value_in(&self, s: usize) -> C32
        requires { s < self.now.win.count }
        ensures { of32 result ≡ value_in self.now.win self.now.spectra.now self.now.k self.now.inverse s }
    {
        spectra::pair_at(self.spectra, s * self.win.len + self.k.0).scale(self.inverse)
    }

    // The mean of the values in the spectra that have the pilot.
    #[tactic(auto, using(crate::proofs::Summing::sum_none, crate::proofs::Summing::sum_more))]
    fn mean(&self) -> C32
        ensures { of32 result ≡ mean_pair (map (value_in self.now.win self.now.spectra.now self.now.k self.now.inverse) (spectra_of self.now.times.sent)) }
    {
        let mut sum = C32::new(0.0, 0.0);
        for i in 0..self.times.sent.count {
            sum = sum + self.value_in(self.times.sent.spectrum(i));
        }
        sum.unscale(self.times.sent.count as f32)
    }

    // The values' and the offsets' distances from their means, multiplied and summed. It shares with `mean`
    // only that complex numbers are added, so the loops stay two.
    #[tactic(auto, using(crate::proofs::Summing::sum_none, crate::proofs::Summing::sum_more, crate::proofs::Summing::term_is))]
    fn slope_sum(&self, middle: C32) -> C32
        ensures { of32 result ≡ slope_sum self.now.times.mean (of32 middle)
            (points_in self.now.win self.now.spectra.now self.now.k self.now.inverse (spectra_of self.now.times.sent)) }
    {
        let mut slope = C32::new(0.0, 0.0);
        for i in 0..self.times.sent.count {
            let s = self.times.sent.spectrum(i);
            let v = self.value_in(s) - middle;
            slope = slope + v.scale(pilot_times::offset(self.win, s) - self.times.mean);
        }
        slope
    }

    // The least-squares line through the values at the current symbol. A single value is taken as it
    // is, and values that are not spread give their mean.
    #[tactic(auto, using(crate::proofs::Fitted::one_is, crate::proofs::Fitted::flat_is, crate::proofs::Fitted::at_zero_is))]
    fn line_at_zero(&self) -> C32
        requires { 0 < self.now.times.sent.count }
        ensures { of32 result ≡ estimate_of self.now.win self.now.spectra.now self.now.k self.now.inverse (spectra_of self.now.times.sent) }
    {
        if self.times.sent.count == 1 {
            return self.value_in(self.times.sent.first);
        }
        let middle = self.mean();
        if self.times.spread <= 0.0 {
            return middle;
        }
        let slope = self.slope_sum(middle).unscale(self.times.spread);
        middle + slope.scale(0.0 - self.times.mean)
    }
}

// The estimate at carrier k. Where no spectrum of the window has its pilot, the carrier is taken as the
// current spectrum has it, its sign too.
#[tactic(auto, using(crate::proofs::Fitted::none_is))]
pub fn estimate_at(win: Window, times: Times, spectra: &[f32], k: BandCarrier, sign: u8) -> C32
    requires { Fitting win times.sent k (length spectra.now) × Timed win times }
    ensures { of32 result ≡ estimate_of win spectra.now k (inverse_of sign) (spectra_of times.sent) }
{
    if times.sent.count == 0 {
        return spectra::pair_at(spectra, win.current.index * win.len + k.0);
    }
    let values = CarrierValues {
        win,
        spectra,
        k,
        inverse: inverse_pilot(sign),
        times,
    };
    values.line_at_zero()
}
