// A fraction of two whole numbers: which of two is the greater, and the float nearest to it.
ghost use Rattle.std.specs.Prelude.{◌≡◌, false, ◌-◌, ◌*◌, ◌+◌, ◌^◌, ◌≤◌};
ghost use Rattle.std.specs.Float.{binary64};
ghost use Rattle.std.specs.Float.Ieee.{round};
ghost use Rattle.place.specs.Ratio.{below, greater, lesser};

use std::marker::Model;

#[derive(Clone, Copy)]
pub struct Fraction {
    pub num: u64,
    pub den: u64,
}

impl Model for Fraction {
    ghost use Rattle.place.specs.Ratio.{Ratio, Short, over};

    ghost Value = { Ratio };

    ghost view = { λ f. over f.num f.den };

    ghost invariant = { λ f. Short (over f.num f.den) };

    ghost inverse = { λ f. record { num = f.num; den = f.den } };
}

// Two fractions are compared by the products, and nothing is rounded. An order of std's (PartialOrd) would have to be one over
// every Ratio, and over a denominator of 0 the products are none.
impl Fraction {
    pub const WHOLE: Fraction = Fraction { num: 1, den: 1 };

    pub fn is_below(self, other: Fraction) -> bool
        ensures { result ≡ below self other }
    {
        self.num * other.den < other.num * self.den
    }

    pub fn max(self, other: Fraction) -> Fraction
        ensures { result ≡ greater self other }
    {
        if self.is_below(other) { other } else { self }
    }

    pub fn min(self, other: Fraction) -> Fraction
        ensures { result ≡ lesser self other }
    {
        if other.is_below(self) { other } else { self }
    }

    // This part of the way from p to q, times the denominator.
    pub fn along(self, p: u64, q: u64) -> u64
        requires sizes { (p ≤ 2 ^ 20) × (q ≤ 2 ^ 20) }
        requires on_ray { self.num ≤ self.den }
        ensures { result ≡ p * (self.den - self.num) + q * self.num }
    {
        p * (self.den - self.num) + q * self.num
    }

    // Both numbers are converted with nothing lost, so the one division rounds once.
    pub fn nearest(self) -> f64
        ensures { result ≡ round binary64 false self.num self.den }
    {
        (self.num as f64) / (self.den as f64)
    }
}
