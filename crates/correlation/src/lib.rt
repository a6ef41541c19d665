// The correlation of samples n apart (acquire.rs of isdb-rs, `detect_mode`): its running sums, and from them
// the sums over the guards of an offset. Samples are lent flat, real and imaginary part in turn.
#![tactic(auto)]

ghost use Rattle.correlation.specs.Correlation.{starts};
ghost use Rattle.correlation.specs.Inner.{Holds, Writable, Windowed, Inside};

use complex::C64;

// The summed correlation and energy at an offset.
#[derive(Clone, Copy)]
pub struct Window {
    pub correlation: C64,
    pub energy: f64,
}

const HALF: f64 = 0.5;

// Writes the prefix sums of the products and halved energies of samples n apart: entry i has the real
// part, the imaginary part and the energy of the first i, one behind another: a C host lends one list of numbers.
pub fn write_prefixes(samples: &[f32], n: usize, scratch: &mut [f64])
    requires { Writable n samples.now scratch.old }
    ensures { Holds n samples.now scratch.new }
{
    let len = samples.len() / 2 - n;
    let mut re = 0.0f64;
    let mut im = 0.0f64;
    let mut energy = 0.0f64;
    scratch[0] = re;
    scratch[1] = im;
    scratch[2] = energy;
    for i in 0..len {
        let a = spectra::pair_at(samples, i);
        let b = spectra::pair_at(samples, i + n);
        let p = (a * b.conj()).widen();
        re += p.re;
        im += p.im;
        energy += f64::from(a.norm_sqr() + b.norm_sqr()) * HALF;
        let at = 3 * (i + 1);
        scratch[at] = re;
        scratch[at + 1] = im;
        scratch[at + 2] = energy;
    }
}

// The sums over the guards of ng samples that start at d and every p further on, and end within len:
// all that are counted, since d lies within the first symbol.
pub fn window_at(sums: &[f64], ng: usize, p: usize, len: usize, d: usize) -> Window
    requires { Inside sums.now ng p len d }
    ensures { Windowed sums.now ng (starts p ng len d) result }
{
    let count = (len - ng) / p;
    let mut re = 0.0f64;
    let mut im = 0.0f64;
    let mut energy = 0.0f64;
    for s in 0..count {
        let a = d + s * p;
        let low = 3 * a;
        let high = 3 * (a + ng);
        re += sums[high] - sums[low];
        im += sums[high + 1] - sums[low + 1];
        energy += sums[high + 2] - sums[low + 2];
    }
    Window {
        correlation: C64::new(re, im),
        energy,
    }
}
