//! Exact numbers `(a + b * sqrt 2) / 2^k`: `Surd`, which coordinates are kept in, and `Wide`, for differences and
//! cross products before they are narrowed.
#![tactic(auto)]

mod arithmetic;
pub mod laws;
mod triple;

ghost use Rattle.std.specs.Prelude.{◌≡◌, ◌≤◌, ◌^◌, IfOk};
ghost use Rattle.surd_number.specs.Stored.{IsStored, IsStoredWide};

use std::cmp::Ordering;
use thiserror::Error;
use triple::Triple;

/// The sign of a number.
#[derive(Clone, Copy, Debug, PartialEq, Eq)]
pub enum Sgn {
    Neg,
    Zero,
    Pos,
}

/// The exact value is not a `Surd`.
#[derive(Clone, Copy, Debug, PartialEq, Eq, Error)]
#[error("the exact value is out of range")]
pub struct OutOfRange;

/// A number `(a + b * sqrt 2) / 2^k` with `|a|, |b| <= 2^36` and `k <= 16`, the least that fits.
#[derive(Clone, Copy, Debug, PartialEq, Eq, Hash)]
pub struct Surd {
    a: i64,
    b: i64,
    k: u8,
    pub ghost stored: { IsStored (record { a = a; b = b; k = k }) },
}

/// The same kind of number with `|a|, |b| <= 2^80` and `k <= 20`. Wides are ordered by their triples, and not by value.
#[derive(Clone, Copy, Debug, PartialEq, Eq, Hash)]
pub struct Wide {
    a: i128,
    b: i128,
    k: u8,
    pub ghost stored: { IsStoredWide (record { a = a; b = b; k = k }) },
}

impl Surd {
    ghost use Rattle.surd_number.specs.Number.{IsSame, whole, sum_of, difference_of, product_of, negative_of, half_of, sign_of, unit_of, unit_inverse_of};
    ghost use Rattle.surd_number.specs.Value.{number_of, triple_number_of};
    ghost use Rattle.surd_number.specs.Whole.{whole_surd};
    ghost use Rattle.surd_number.specs.Exact.{IsExactly};

    /// The number `(a + b * sqrt 2) / 2^k`, brought to the least `k`.
    pub fn new(a: i64, b: i64, k: u8) -> Result<Surd, OutOfRange>
        ensures { IsExactly result (record { a = a; b = b; k = k }) }
    {
        Surd::exactly(&Triple {
            a: a as i128,
            b: b as i128,
            k,
        })
    }

    /// A whole number.
    pub fn whole(n: i32) -> Surd
        ensures number { number_of result ≡ whole n }
        ensures value { result ≡ whole_surd n }
    {
        Surd {
            a: n as i64,
            b: 0,
            k: 0,
        }
    }

    /// The triple `(a, b, k)`.
    pub fn parts(&self) -> (i64, i64, u8)
        ensures { record { a = result.0; b = result.1; k = result.2 } ≡ number_of self.now }
    {
        (self.a, self.b, self.k)
    }

    /// The sign.
    pub fn sgn(&self) -> Sgn
        ensures { result ≡ sign_of (number_of self.now) }
    {
        self.triple().sgn()
    }

    /// `-self`.
    pub fn neg(&self) -> Surd
        ensures { number_of result ≡ negative_of (number_of self.now) }
    {
        Surd::kept(&self.triple().negated())
    }

    /// The exact sum.
    pub fn add(&self, other: &Surd) -> Result<Surd, OutOfRange>
        ensures { IsExactly result (sum_of (number_of self.now) (number_of other.now)) }
    {
        Surd::exactly(&self.triple().plus(&other.triple()))
    }

    /// The exact difference.
    pub fn sub(&self, other: &Surd) -> Result<Surd, OutOfRange>
        ensures { IsExactly result (difference_of (number_of self.now) (number_of other.now)) }
    {
        Surd::exactly(&self.triple().minus(&other.triple()))
    }

    /// The exact product.
    pub fn mul(&self, other: &Surd) -> Result<Surd, OutOfRange>
        ensures { IsExactly result (product_of (number_of self.now) (number_of other.now)) }
    {
        Surd::exactly(&self.triple().times(&other.triple()))
    }

    /// The exact half.
    pub fn half(&self) -> Result<Surd, OutOfRange>
        ensures exact { IsExactly result (half_of (number_of self.now)) }
        ensures twice { IfOk result (λ h. IsSame (sum_of (number_of h) (number_of h)) (number_of self.now)) }
    {
        Surd::exactly(&self.triple().half())
    }

    /// The exact quotient by `t^i * (sqrt 2)^j`, where t is `sqrt 2 - 1`.
    pub fn div_unit(&self, i: u8, j: u8) -> Result<Surd, OutOfRange>
        requires few { i ≤ 1 }
        requires few_roots { j ≤ 3 }
        ensures exact { IsExactly result (product_of (number_of self.now) (unit_inverse_of i j)) }
        ensures quotient { IfOk result
            (λ q. IsSame (product_of (number_of q) (unit_of i j)) (number_of self.now)) }
    {
        Surd::exactly(&self.triple().times(&Triple::unit_inverse(i, j)))
    }

    fn triple(&self) -> Triple
        ensures { triple_number_of result ≡ number_of self.now }
    {
        Triple {
            a: self.a as i128,
            b: self.b as i128,
            k: self.k,
        }
    }

    // A triple that a Surd keeps.
    fn kept(least: &Triple) -> Surd
        requires { IsStored (triple_number_of least.now) }
        ensures { number_of result ≡ triple_number_of least.now }
    {
        Surd {
            a: least.a as i64,
            b: least.b as i64,
            k: least.k,
        }
    }

    // The number as a Surd, if it is one.
    fn exactly(number: &Triple) -> Result<Surd, OutOfRange>
        ensures { IsExactly result (triple_number_of number.now) }
    {
        let least = number.reduced();
        if least.is_narrow() {
            Ok(Surd::kept(&least))
        } else {
            Err(OutOfRange)
        }
    }
}

impl Ord for Surd {
    ghost use Rattle.std.specs.Prelude.{refl};
    ghost use Rattle.surd_number.specs.Order.{compare_surds};
    ghost use Rattle.surd_number.specs.SurdLaws.{compare_surds_total, surd_eq_is};

    ghost cmp = { compare_surds };

    ghost total = { compare_surds_total };

    ghost matches_partial_cmp = { λ _ _. refl };

    ghost matches_eq = { surd_eq_is };

    fn cmp(&self, other: &Surd) -> Ordering {
        match self.triple().minus(&other.triple()).sgn() {
            Sgn::Neg => Ordering::Less,
            Sgn::Zero => Ordering::Equal,
            Sgn::Pos => Ordering::Greater,
        }
    }
}

impl PartialOrd for Surd {
    ghost use Rattle.std.specs.Ordering.{as_partial_cmp};
    ghost use Rattle.std.specs.Prelude.{refl};
    ghost use Rattle.std.specs.Cmp.{partial_order_from_agreeing_total};
    ghost use Rattle.surd_number.specs.Order.{compare_surds};
    ghost use Rattle.surd_number.specs.SurdLaws.{compare_surds_total, surd_eq_is};

    ghost partial_cmp = { as_partial_cmp compare_surds };

    ghost laws = { partial_order_from_agreeing_total compare_surds compare_surds_total
        (λ _ _. refl) surd_eq_is };

    fn partial_cmp(&self, other: &Surd) -> Option<Ordering> {
        Some(self.cmp(other))
    }
}

impl Wide {
    ghost use Rattle.surd_number.specs.Number.{IsSame, IsWithin, sum_of, difference_of, product_of, sign_of, unit_of, unit_inverse_of, root_two, half_root, FitsOver};
    ghost use Rattle.surd_number.specs.Stored.{IsWide};
    ghost use Rattle.surd_number.specs.Value.{number_of, wide_number_of, triple_number_of};
    ghost use Rattle.surd_number.specs.Exact.{IsExactly, IsWideOf};

    /// The same number.
    pub fn of(n: &Surd) -> Wide
        ensures value { wide_number_of result ≡ number_of n.now }
        ensures fits { FitsOver (2 ^ 52) 16 (wide_number_of result) }
    {
        Wide::kept(&n.triple())
    }

    /// The triple `(a, b, k)`.
    pub fn parts(&self) -> (i128, i128, u8)
        ensures { record { a = result.0; b = result.1; k = result.2 } ≡ wide_number_of self.now }
    {
        (self.a, self.b, self.k)
    }

    /// The exact sum.
    pub fn plus(&self, other: &Wide) -> Wide
        requires { IsWide (sum_of (wide_number_of self.now) (wide_number_of other.now)) }
        ensures { IsWideOf result (sum_of (wide_number_of self.now) (wide_number_of other.now)) }
    {
        Wide::exactly(&self.triple().plus(&other.triple()))
    }

    /// The exact difference.
    pub fn minus(&self, other: &Wide) -> Wide
        requires { IsWide (difference_of (wide_number_of self.now) (wide_number_of other.now)) }
        ensures { IsWideOf result (difference_of (wide_number_of self.now) (wide_number_of other.now)) }
    {
        Wide::exactly(&self.triple().minus(&other.triple()))
    }

    /// The exact product with `t^i * (sqrt 2)^j`, where t is `sqrt 2 - 1`.
    pub fn times_unit(&self, i: u8, j: u8) -> Wide
        requires few { i ≤ 1 }
        requires few_roots { j ≤ 3 }
        requires fits { IsWide (product_of (wide_number_of self.now) (unit_of i j)) }
        ensures { IsWideOf result (product_of (wide_number_of self.now) (unit_of i j)) }
    {
        Wide::exactly(&self.triple().times(&Triple::unit(i, j)))
    }

    /// The exact quotient by `t^i * (sqrt 2)^j`, where t is `sqrt 2 - 1`.
    pub fn over_unit(&self, i: u8, j: u8) -> Wide
        requires few { i ≤ 1 }
        requires few_roots { j ≤ 3 }
        requires fits { IsWide (product_of (wide_number_of self.now) (unit_inverse_of i j)) }
        ensures { IsWideOf result (product_of (wide_number_of self.now) (unit_inverse_of i j)) }
    {
        Wide::exactly(&self.triple().times(&Triple::unit_inverse(i, j)))
    }

    /// The exact product with `sqrt 2 / 2`.
    pub fn half_root(&self) -> Wide
        requires { IsWide (product_of (wide_number_of self.now) half_root) }
        ensures exact { IsWideOf result (product_of (wide_number_of self.now) half_root) }
        ensures root { IsSame (product_of (wide_number_of result) root_two) (wide_number_of self.now) }
    {
        Wide::exactly(&self.triple().times(&Triple { a: 0, b: 1, k: 1 }))
    }

    /// The sign.
    pub fn sgn(&self) -> Sgn
        requires { IsWithin 63 20 (wide_number_of self.now) }
        ensures { result ≡ sign_of (wide_number_of self.now) }
    {
        self.triple().sgn()
    }

    /// The same number as a `Surd`, if it is one.
    pub fn narrow(&self) -> Result<Surd, OutOfRange>
        ensures { IsExactly result (wide_number_of self.now) }
    {
        Surd::exactly(&self.triple())
    }

    fn triple(&self) -> Triple
        ensures { triple_number_of result ≡ wide_number_of self.now }
    {
        Triple {
            a: self.a,
            b: self.b,
            k: self.k,
        }
    }

    // The number as a Wide, which it fits.
    fn exactly(number: &Triple) -> Wide
        requires { IsWide (triple_number_of number.now) }
        ensures { IsWideOf result (triple_number_of number.now) }
    {
        Wide::kept(&number.reduced())
    }

    // A triple that a Wide keeps.
    fn kept(least: &Triple) -> Wide
        requires { IsStoredWide (triple_number_of least.now) }
        ensures { wide_number_of result ≡ triple_number_of least.now }
    {
        Wide {
            a: least.a,
            b: least.b,
            k: least.k,
        }
    }
}

impl Ord for Wide {
    ghost use Rattle.std.specs.Prelude.{refl};
    ghost use Rattle.surd_number.specs.Order.{compare_wides};
    ghost use Rattle.surd_number.specs.SurdLaws.{compare_wides_total, wide_eq_is};

    ghost cmp = { compare_wides };

    ghost total = { compare_wides_total };

    ghost matches_partial_cmp = { λ _ _. refl };

    ghost matches_eq = { wide_eq_is };

    fn cmp(&self, other: &Wide) -> Ordering {
        self.a
            .cmp(&other.a)
            .then(self.b.cmp(&other.b).then(self.k.cmp(&other.k)))
    }
}

impl PartialOrd for Wide {
    ghost use Rattle.std.specs.Ordering.{as_partial_cmp};
    ghost use Rattle.std.specs.Prelude.{refl};
    ghost use Rattle.std.specs.Cmp.{partial_order_from_agreeing_total};
    ghost use Rattle.surd_number.specs.Order.{compare_wides};
    ghost use Rattle.surd_number.specs.SurdLaws.{compare_wides_total, wide_eq_is};

    ghost partial_cmp = { as_partial_cmp compare_wides };

    ghost laws = { partial_order_from_agreeing_total compare_wides compare_wides_total
        (λ _ _. refl) wide_eq_is };

    fn partial_cmp(&self, other: &Wide) -> Option<Ordering> {
        Some(self.cmp(other))
    }
}
