// What IEEE 754 arithmetic needs beyond Rattle's operators: an f64 narrowed to the nearest f32, for
// every bit pattern, and the zero that sums start at. specs/ has the laws of floats that signal processing leans
// on: signs and zeros, order, and gain by a power of two. The square root is `root`'s.
#![tactic(auto)]

ghost use Rattle.std.specs.Prelude.{◌≡◌, ◌^◌, ◌%◌, ◌≤◌, ◌<◌};
ghost use Rattle.std.specs.Float.Ieee.Nearest as Nearest;
ghost use Rattle.ieee.specs.Narrow.{narrow_of};
ghost use Rattle.ieee.specs.Inner.{Narrowed};

// Where `sum::<f32>()` starts.
pub const NEGATIVE_ZERO: f32 = -0.0;

// m / p to the nearest whole number, a tie to the even one, for an even p, with no branch: less than half of p, and the quotient's last bit,
// carry into the quotient exactly where m is rounded up. For a power of two that is an addition and a shift.
#[tactic(auto, using(crate::specs::Narrowing::closest_even))]
fn closest(m: u64, p: u64) -> u64
    requires { (0 < p) × (p % 2 ≡ 0) × (p < 9223372036854775808) × (m < 9007199254740992) }
    ensures { result ≡ Nearest.closest m p }
{
    (m + (p / 2 - 1) + m / p % 2) / p
}

// The bits of the f32 nearest to the f64 whose bits are b, both without their sign. The digits that
// round up carry into the exponent, and on to infinity, by themselves.
#[tactic(auto, using(crate::specs::Narrowing::narrow_zero, crate::specs::Narrowing::narrow_over))]
fn narrow_bits(b: u64) -> u32
    requires { b ≤ 9218868437227405312 }
    ensures { Narrowed b result }
{
    let e = b / 0x10_0000_0000_0000;
    if e < 873 {
        return 0;
    }
    if 1150 < e {
        return 0x7f80_0000;
    }
    let m = b % 0x10_0000_0000_0000 + 0x10_0000_0000_0000;
    if e < 897 {
        return closest(m, 1 << (926 - e)) as u32;
    }
    ((e - 897) * 0x80_0000 + closest(m, 1 << 29)) as u32
}

// The f32 nearest to x, a tie to the even one: Rust's `x as f32`.
pub fn narrow(x: f64) -> f32
    ensures { result ≡ narrow_of x }
{
    if x.is_nan() {
        return f32::NAN;
    }
    let b = x.to_bits();
    if b < 0x8000_0000_0000_0000 {
        return f32::from_bits(narrow_bits(b));
    }
    f32::from_bits(0x8000_0000 + narrow_bits(b - 0x8000_0000_0000_0000))
}
