// Complex numbers: pairs of floats by value, with num-complex's names and order of operations, each
// rounded once to the format of its parts. Generic over the two floats, but for the norms: that of an f32 pair
// is worked out in f64 and narrowed, that of an f64 pair is not, so one generic function is no plainer.
#![tactic(auto)]

ghost use Rattle.std.specs.Prelude.{◌≡◌};
ghost use Rattle.std.specs.Float.{binary64};
ghost use Rattle.complex.specs.Complex.{pair, of, of32, of64, product, conjugate, plus, minus, squared_size, scaled, divided, norm32, norm64};

use num_traits::Float;
use std::ops::{Add, Mul, Sub};

#[derive(Clone, Copy)]
pub struct Complex<T> {
    pub re: T,
    pub im: T,
}

pub type C32 = Complex<f32>;

pub type C64 = Complex<f64>;

impl<T: Float> Complex<T> {
    pub fn new(re: T, im: T) -> Complex<T>
        ensures { of T.float result ≡ pair (T.float re) (T.float im) }
    {
        Complex { re, im }
    }

    pub fn conj(self) -> Complex<T>
        ensures { of T.float result ≡ conjugate (of T.float self) }
    {
        Complex {
            re: self.re,
            im: -self.im, // a zero's sign too
        }
    }

    pub fn norm_sqr(self) -> T
        ensures { T.float result ≡ squared_size T.format (of T.float self) }
    {
        self.re * self.re + self.im * self.im
    }

    pub fn scale(self, factor: T) -> Complex<T>
        ensures { of T.float result ≡ scaled T.format (of T.float self) (T.float factor) }
    {
        Complex {
            re: self.re * factor,
            im: self.im * factor,
        }
    }

    pub fn unscale(self, divisor: T) -> Complex<T>
        ensures { of T.float result ≡ divided T.format (of T.float self) (T.float divisor) }
    {
        Complex {
            re: self.re / divisor,
            im: self.im / divisor,
        }
    }
}

impl<T: Float> Mul for Complex<T> {
    type Output = Complex<T>;

    ghost mul_gives = { λ x y z. of T.float z ≡ product T.format (of T.float x) (of T.float y) };

    fn mul(self, other: Complex<T>) -> Complex<T> {
        Complex {
            re: self.re * other.re - self.im * other.im, // ac - bd
            im: self.re * other.im + self.im * other.re, // ad + bc
        }
    }
}

impl<T: Float> Add for Complex<T> {
    type Output = Complex<T>;

    ghost add_gives = { λ x y z. of T.float z ≡ plus T.format (of T.float x) (of T.float y) };

    fn add(self, other: Complex<T>) -> Complex<T> {
        Complex {
            re: self.re + other.re,
            im: self.im + other.im,
        }
    }
}

impl<T: Float> Sub for Complex<T> {
    type Output = Complex<T>;

    ghost sub_gives = { λ x y z. of T.float z ≡ minus T.format (of T.float x) (of T.float y) };

    fn sub(self, other: Complex<T>) -> Complex<T> {
        Complex {
            re: self.re - other.re,
            im: self.im - other.im,
        }
    }
}

impl Complex<f32> {
    // The squared size in f64, where squares and sum neither overflow nor round to zero.
    // Not `self.widen().norm_sqr()`, which needs no test for a NaN: measured, `norm32` took 11 in 100 longer
    // by it, and it may take no longer than before.
    #[tactic(auto, using(crate::proofs::Nans::of_re, crate::proofs::Nans::of_im))]
    pub fn wide_norm_sqr(self) -> f64
        ensures { result ≡ squared_size binary64 (of32 self) }
    {
        if self.re.is_nan() || self.im.is_nan() {
            return f64::NAN;
        }
        let x = C64::new(self.re as f64, self.im as f64);
        x.norm_sqr()
    }

    #[tactic(auto, unfolding(crate::specs::Complex::norm32, crate::specs::Complex::norm64))]
    pub fn norm(self) -> f32
        ensures { result ≡ norm32 (of32 self) }
    {
        root::narrow_root(self.wide_norm_sqr())
    }

    // The same numbers as f64.
    pub fn widen(self) -> C64
        ensures { of64 result ≡ of32 self }
    {
        Complex {
            re: f64::from(self.re),
            im: f64::from(self.im),
        }
    }
}

impl Complex<f64> {
    #[tactic(auto, unfolding(crate::specs::Complex::norm64))]
    pub fn norm(self) -> f64
        ensures { result ≡ norm64 (of64 self) }
    {
        root::root(self.norm_sqr())
    }
}
