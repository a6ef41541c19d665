// The fractional carrier offset (acquire.rs of isdb-rs, `cfo_frac`), from the summed correlation of a
// guess: how far carriers sit above their bins, in carrier spacings.
#![tactic(auto)]

ghost use Rattle.std.specs.Prelude.{◌≡◌};
ghost use Rattle.complex.specs.Complex.{of64};
ghost use Rattle.cfo_frac.specs.CfoFrac.{cfo_frac};

use complex::C64;

// The correlation sums x[i] times the conjugate of x[i + n]. An offset of e carrier spacings turns each
// n samples by e turns, and so the product by -e: the offset is minus the angle. It is negated as a
// whole number, so that angle 0 gives +0.0.
pub fn cfo_frac(correlation: C64) -> f64
    ensures { result ≡ cfo_frac (of64 correlation) }
{
    let a = angle::angle(correlation);
    (0 - a) as f64 / 65536.0
}
