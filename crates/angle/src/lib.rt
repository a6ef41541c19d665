// The angle of a pair of f64 numbers in 1/65536 of a turn, with whole numbers and a table of
// arctangents (docs/ANGLE.md): the slope of the pair within its octant, looked up between two entries,
// and mirrored into the octant of the pair. The sizes are read from the bits, and no float is
// rounded, so that turns, mirrors and powers of two keep the angle exactly.
#![tactic(auto)]

mod arctangents;

ghost use Rattle.std.specs.Prelude.{◌≡◌, ◌+◌, ◌*◌, ◌/◌, ◌≤◌, ◌<◌, leb};
ghost use Rattle.std.specs.Float.{binary64};
ghost use Rattle.std.specs.Float.Ieee.{of_bits};
ghost use Rattle.complex.specs.Complex.{of64};
ghost use Rattle.angle.specs.Arctangents.{entry_at};
ghost use Rattle.angle.specs.Angle.{slope, octant, quarter, mirror, circle_of, angle_of};
ghost use Rattle.angle.specs.Inner.{digits, exponent, size_of};

use arctangents::ARCTANGENTS;
use complex::C64;

// A size of m * 2^k units of 2^-1074, of which every f64 is a whole number.
#[derive(Clone, Copy)]
pub struct Size {
    pub m: u64,
    pub k: u64,
}

// The bits of a finite number, without their sign: larger bits are a larger size.
#[derive(Clone, Copy)]
struct Unsigned {
    bits: u64,
    ghost finite: { bits < 9218868437227405312 },
}

impl Unsigned {
    // The size that they stand for. A subnormal has the exponent of the smallest normal numbers, so it is
    // not brought to full digits first. `root` takes bits apart by the same few lines: one function for both
    // would need digits and exponent defined, with their laws, in `ieee`, and is no plainer.
    fn size(self) -> Size
        ensures { (result.m ≡ digits self.bits) × (result.k ≡ exponent self.bits) }
    {
        let e = self.bits / 0x10_0000_0000_0000;
        let t = self.bits % 0x10_0000_0000_0000;
        if e == 0 {
            return Size { m: t, k: 0 };
        }
        Size {
            m: t + 0x10_0000_0000_0000,
            k: e - 1,
        }
    }
}

// m / n times 2^22, cut: a long division by two digits of eleven bits, which 64 bits have room for.
fn divided(m: u64, n: u64) -> u64
    requires { (m < 2 * n) × (n < 9007199254740992) × (m < 9007199254740992) }
    ensures { (result ≡ m * 4194304 / n) × (result < 8388608) }
{
    let x = m * 2048;
    let y = x % n * 2048;
    x / n * 2048 + y / n
}

// The slope of the pair of a and b, of which b is not the greater. Cut after the division by the digits,
// it is moved down by the exponents' difference, and what that cuts is the same as if all were divided at
// once.
fn slope_of(a: Unsigned, b: Unsigned) -> u64
    requires { (b.bits ≤ a.bits) × (0 < a.bits) }
    ensures { result ≡ slope (size_of a.bits) (size_of b.bits) }
{
    let p = a.size();
    let q = b.size();
    let d = p.k - q.k;
    let w = divided(q.m, p.m);
    if d > 22 {
        return 0;
    }
    w >> d
}

// Two neighbours in the table.
#[derive(Clone, Copy)]
pub struct Ends {
    pub lo: u64,
    pub hi: u64,
}

fn ends_at(i: usize) -> Ends
    requires { i < 65 }
    ensures { (result.lo ≡ entry_at i) × (result.hi ≡ entry_at (i + 1)) }
{
    Ends {
        lo: u64::from(ARCTANGENTS[i]),
        hi: u64::from(ARCTANGENTS[i + 1]),
    }
}

// The angle of a slope of q / 2^22, from 0 to an eighth of a turn.
fn octant_of(q: u64) -> u64
    requires { q ≤ 4194304 }
    ensures { (result ≡ octant q) × (result ≤ 8192) }
{
    let e = ends_at((q / 65536) as usize);
    let f = q % 65536;
    (e.lo * (65536 - f) + e.hi * f + 131072) / 262144
}

// The angle of the pair of a and b, not both zero.
fn quarter_of(a: Unsigned, b: Unsigned) -> u64
    requires { 0 < a.bits + b.bits }
    ensures { (result ≡ quarter (size_of a.bits) (size_of b.bits)) × (result ≤ 16384) }
{
    if b.bits <= a.bits {
        return octant_of(slope_of(a, b));
    }
    16384 - octant_of(slope_of(b, a))
}

// Mirrored, where the bits of a part have a minus sign: what is left of half a turn, in the imaginary
// axis, or of a whole turn, in the real axis.
fn mirror_of(bits: u64, turn: u64, h: u64) -> u64
    requires { h ≤ turn }
    ensures { result ≡ mirror (leb 9223372036854775808 bits) turn h }
{
    if 0x8000_0000_0000_0000 <= bits {
        return (turn - h) % 65536;
    }
    h
}

// Round the circle, from 0 to 65535: the angle of the pair with the bits x and y.
fn circle_of_bits(x: u64, y: u64) -> u64
    ensures { result ≡ circle_of (of_bits binary64 x) (of_bits binary64 y) }
{
    let a = x % 0x8000_0000_0000_0000;
    let b = y % 0x8000_0000_0000_0000;
    if a >= 0x7ff0_0000_0000_0000 || b >= 0x7ff0_0000_0000_0000 || a + b == 0 {
        return 0;
    }
    let quarter = quarter_of(Unsigned { bits: a }, Unsigned { bits: b });
    mirror_of(y, 65536, mirror_of(x, 32768, quarter))
}

// The same of numbers. The bits of a NaN are not decided, so it is passed over first.
fn circle_of(re: f64, im: f64) -> u64
    ensures { (result ≡ circle_of re im) × (result < 65536) }
{
    if re.is_nan() || im.is_nan() {
        return 0;
    }
    circle_of_bits(re.to_bits(), im.to_bits())
}

// The angle of a pair in 1/65536 of a turn: above -32768, at most 32768.
pub fn angle(z: C64) -> i32
    ensures { result ≡ angle_of (of64 z) }
{
    let c = circle_of(z.re, z.im);
    if c <= 32768 {
        return c as i32;
    }
    c as i32 - 65536
}
