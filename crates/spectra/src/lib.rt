// Spectra as they are lent: one behind another in a flat slice, real and imaginary part in turn.
#![tactic(auto)]

ghost use Rattle.std.specs.Prelude.{◌≡◌, ◌+◌, ◌*◌, ◌<◌, length};
ghost use Rattle.params.specs.Params.{code_of};
ghost use Rattle.complex.specs.Complex.{of32};
ghost use Rattle.spectra.specs.Spectra.{pair_at, with_pair, spectra_code};

use complex::C32;
use params::Refusal;

// Pair k.
pub fn pair_at(xs: &[f32], k: usize) -> C32
    requires { 2 * k + 1 < length xs.now }
    ensures { of32 result ≡ pair_at xs.now k }
{
    C32::new(xs[2 * k], xs[2 * k + 1])
}

// Stores v as pair k.
pub fn put_pair(xs: &mut [f32], k: usize, v: C32)
    requires { 2 * k + 1 < length xs.old }
    ensures { xs.new ≡ with_pair xs.old k (of32 v) }
{
    xs[2 * k] = v.re;
    xs[2 * k + 1] = v.im;
}

// 5 unless n floats are whole spectra of len pairs, at most 1,024; 6 if none.
pub fn refusal(len: usize, n: usize) -> Result<(), Refusal>
    ensures { code_of result ≡ spectra_code len n 0 }
{
    if n == 0 {
        return Err(Refusal::NoSpectra);
    }
    // the second test keeps 2 * len within a word
    if len == 0 || n / 2 < len {
        return Err(Refusal::NotWhole);
    }
    let w = 2 * len;
    if n % w != 0 || n / w > 1024 {
        return Err(Refusal::NotWhole);
    }
    Ok(())
}
