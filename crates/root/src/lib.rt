// The square root of an f64: the nearest f64, and that narrowed to the nearest f32, both for every bit
// pattern. specs/ defines the root, and has its laws: that no other f64 is nearer, and what a gain does.
#![tactic(auto)]

mod seeds;

ghost use Rattle.std.specs.Prelude.{◌≡◌, true, IfSome, ◌+◌, ◌*◌, ◌%◌, ◌^◌, ◌≤◌, ◌<◌};
ghost use Rattle.std.specs.Float.{binary64};
ghost use Rattle.std.specs.Float.Ieee.{of_bits};
ghost use Rattle.ieee.specs.Narrow.{narrow_of};
ghost use Rattle.root.specs.Root.{root_of};
ghost use Rattle.root.specs.Inner.{Ready, Refined, Rooted, Lifted, RootBits, Near, NarrowRoot};

// A whole root and what its square leaves of the number: s * s + r, with r at most 2 * s.
#[derive(Clone, Copy)]
pub struct RootRest {
    pub s: u64,
    pub r: u64,
}

// A number times 4^i.
#[derive(Clone, Copy)]
pub struct Lift {
    pub a: u64,
    pub i: u64,
}

impl RootRest {
    // One step of the root by halves (Zimmermann): from the root of n to that of n * b * b + hi * b + lo,
    // by one division.
    fn refine(self, b: u64, hi: u64, lo: u64) -> RootRest
        requires { Ready self.s self.r b hi lo }
        ensures { Refined self.s self.r b hi lo result.s result.r }
    {
        let t = self.r * b + hi;
        let d = 2 * self.s;
        let q = t / d;
        let u = t % d;
        let e = self.s * b + q;
        let x = u * b + lo;
        let y = q * q;
        if y <= x {
            return RootRest { s: e, r: x - y };
        }
        RootRest {
            s: e - 1,
            r: x + (2 * e - 1) - y,
        }
    }
}

// The whole root of t, which has 7 or 8 digits.
fn seed(t: usize) -> u8
    requires { (64 ≤ t) × (t < 256) }
    ensures { (result * result ≤ t) × (t ≤ result * result + 2 * result) × (8 ≤ result) × (result < 16) }
{
    seeds::SEEDS[t - 64]
}

// The root of a * 2^52, a having 53 or 54 digits: from that of the leading 7 or 8 digits, in four
// steps that nearly double the digits each.
fn whole_root(a: u64) -> RootRest
    requires { (4503599627370496 ≤ a) × (a < 18014398509481984) }
    ensures { Rooted a result.s result.r }
{
    let t = a / 0x4000_0000_0000;
    let s = seed(t as usize) as u64;
    let p2 = RootRest { s, r: t - s * s };
    let p3 = p2.refine(8, a / 0x800_0000_0000 % 8, a / 0x100_0000_0000 % 8);
    let p4 = p3.refine(128, a / 0x2_0000_0000 % 128, a / 0x400_0000 % 128);
    let p5 = p4.refine(8192, a / 8192 % 8192, a % 8192);
    p5.refine(0x400_0000, 0, 0)
}

// A number of 53 digits and of either power of 2, as one of an even power: with 54 digits at most.
#[derive(Clone, Copy)]
struct Operand {
    a: u64,
    ghost some: { 0 < a },
    ghost few: { a ≤ 18014398509481982 },
}

impl Operand {
    // From m and the power k, with no branch: half of all k are odd.
    fn new(m: u64, k: u64) -> Operand
        requires { (0 < m) × (m < 9007199254740992) }
        ensures { result.a ≡ m * (k % 2 + 1) }
    {
        Operand { a: m * (k % 2 + 1) }
    }

    // Times the power of 4 that gives it 53 or 54 digits. Only a subnormal has fewer of its own: the
    // test spares all others the count.
    fn lifted(self) -> Lift
        ensures { Lifted self.a result.a result.i }
    {
        if 0x10_0000_0000_0000 <= self.a {
            return Lift { a: self.a, i: 0 };
        }
        let i = u64::from((self.a.leading_zeros() - 10) / 2);
        Lift {
            a: self.a << (2 * i),
            i,
        }
    }

    // The bits of the root of a * 4^h units.
    fn root_bits(self, h: u64) -> u64
        requires { (537 ≤ h) × (h ≤ 1560) }
        ensures { RootBits (self.a * 2 ^ (h + h)) result }
    {
        let l = self.lifted();
        let p = whole_root(l.a);
        let g = (h - l.i - 26) * 0x10_0000_0000_0000;
        let s = p.s;
        // one more where the remainder is above the root, with no branch
        let up = (0x8000_0000_0000_0000 + p.r - s - 1) / 0x8000_0000_0000_0000;
        g + (s + up)
    }

    // Whether the root of a, divided by 8, is clearly nearer to y than to any other whole number.
    fn is_near(self, y: u64) -> bool
        requires { (8388608 ≤ y) × (y < 16777216) }
        ensures { result ≡ true → Near self.a y }
    {
        // the squares of h and of h - 8 enclose a, with 4 to spare
        let h = 8 * y + 4;
        let s = h * h;
        if s < self.a + 4 {
            return false;
        }
        s + 68 <= self.a + 16 * h
    }
}

// The bits of the root of m * 2^k units.
fn root_of_units(m: u64, k: u64) -> u64
    requires { (0 < m) × (m < 9007199254740992) × (k ≤ 2046) }
    ensures { RootBits (m * 2 ^ k * 2 ^ 1074) result }
{
    Operand::new(m, k).root_bits(537 + k / 2)
}

// The bits of the root of the number above zero whose bits are b. `angle` takes bits apart by the same few
// lines (`Unsigned::size`, which says why there are two).
fn positive_root(b: u64) -> u64
    requires { (0 < b) × (b < 9218868437227405312) }
    ensures { (of_bits binary64 result ≡ root_of (of_bits binary64 b)) × (result < 9218868437227405312) }
{
    let e = b / 0x10_0000_0000_0000;
    let t = b % 0x10_0000_0000_0000;
    if e == 0 {
        return root_of_units(t, 0);
    }
    root_of_units(t + 0x10_0000_0000_0000, e - 1)
}

// The f64 nearest to the square root of x. A zero and +∞ come back as they are; a number below zero
// gives a NaN.
pub fn root(x: f64) -> f64
    ensures { result ≡ root_of x }
{
    if x.is_nan() {
        return x;
    }
    let b = x.to_bits();
    if b < 0x7ff0_0000_0000_0000 {
        if b == 0 {
            return x;
        }
        return f64::from_bits(positive_root(b));
    }
    if b == 0x7ff0_0000_0000_0000 || b == 0x8000_0000_0000_0000 {
        return x;
    }
    0.0 / 0.0
}

// The leading 24 digits of about the root of the number whose bits are b. Three steps of Goldschmidt,
// which lead multiples of the root (s) and of 1 / root (r) on together, from half the exponent; the
// constants make the last answer the root itself.
// Nothing is promised of the guess: `is_near` tells whether it is good.
fn near_root(b: u64) -> u64
    requires { b < 5760103923406864384 }
    ensures { (8388608 ≤ result) × (result < 16777216) }
{
    let x = f64::from_bits(b);
    let r0 = f64::from_bits(0x5fdf_3d58_0000_0000 - b / 2);
    let s0 = x * r0;
    let e0 = 1.54 - s0 * r0;
    let s1 = s0 * e0;
    let r1 = r0 * e0;
    let e1 = 1.62009 - s1 * r1;
    let s2 = s1 * e1;
    let r2 = r1 * e1;
    let c = s2 * (1.8898815748423097 - s2 * r2);
    if c.is_nan() {
        return 0x80_0000;
    }
    // rounded, and without the exponent
    let q = (c.to_bits() % 0x8000_0000_0000_0000 + 0x1000_0000) / 0x2000_0000;
    q % 0x80_0000 + 0x80_0000
}

// The bits of the narrowed root of the number whose bits are b, if the guess was good. b is such that
// the root is an f32 of 24 digits.
fn guessed_bits(b: u64) -> Option<u32>
    requires { (3472275312702652416 ≤ b) × (b < 5760103923406864384) }
    ensures { IfSome result (λ r. NarrowRoot b r) }
{
    let y = near_root(b);
    // the bits above the least such b; its exponent is odd
    let t = b - 0x3030_0000_0000_0000;
    let m = t % 0x10_0000_0000_0000 + 0x10_0000_0000_0000;
    let k = t / 0x10_0000_0000_0000;
    if Operand::new(m, k).is_near(y) {
        let r = k / 2 * 0x80_0000 + y;
        return Some(r as u32);
    }
    None
}

// The f32 nearest to the f64 nearest to the square root of x. Where it has 24 digits it is guessed and
// checked, with no division; one guess in a hundred thousand is no good.
pub fn narrow_root(x: f64) -> f32
    ensures { result ≡ narrow_of (root_of x) }
{
    if !x.is_nan() {
        let b = x.to_bits();
        if 0x3030_0000_0000_0000 <= b && b < 0x4ff0_0000_0000_0000 {
            if let Some(r) = guessed_bits(b) {
                return f32::from_bits(r);
            }
        }
    }
    ieee::narrow(root(x))
}
