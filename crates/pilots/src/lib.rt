// The value that a pilot is sent with, after frame.rs of isdb-rs (ARIB STD-B31, Tables 3-17 and 3-19).
// Its sign is prbs's.
#![tactic(auto)]

ghost use Rattle.std.specs.Prelude.{◌≡◌};
ghost use Rattle.complex.specs.Complex.{of32};
ghost use Rattle.pilots.specs.Pilots.{pilot_value};

use complex::C32;

// Pilot amplitude 4/3 (Tables 3-17 and 3-19).
const PILOT_AMPLITUDE: f32 = 1.3333334;

// BPSK pilot value of W (Table 3-17): 1 is -4/3, 0 is +4/3. W stays a number: it is a digit of the
// register, and a byte of the map that a C host lends. `pilot_line::inverse_pilot` tests it too: a function for both
// would be handed the amplitude, and would be as long as the test.
pub fn pilot_value(w: u8) -> C32
    ensures { of32 result ≡ pilot_value w }
{
    let amplitude = if w == 0 {
        PILOT_AMPLITUDE
    } else {
        -PILOT_AMPLITUDE
    };
    C32::new(amplitude, 0.0)
}
