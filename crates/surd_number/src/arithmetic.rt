//! Whole numbers of up to 128 bits, within bounds that keep each result in its type.

ghost use Rattle.std.specs.Prelude.{◌≡◌, ◌↔◌, ℕ, ◌+◌, ◌*◌, ◌%◌, ◌^◌, ◌<◌, ◌≤◌, IsTrue, ℤ, pos, ◌+ℤ◌, ◌*ℤ◌, unsigned_abs};
ghost use Rattle.surd_number.specs.Number.{power, root_sign};

use crate::Sgn;

/// `2^k`.
fn power_of_two(k: u8) -> i128
    requires { k ≤ 40 }
    ensures { result ≡ power k }
{
    1i128 << k
}

/// `m + n`.
pub(crate) fn sum(m: i128, n: i128) -> i128
    requires few_bits { unsigned_abs m ≤ 2 ^ 117 }
    requires few_bits_other { unsigned_abs n ≤ 2 ^ 117 }
    ensures { result ≡ m +ℤ n }
{
    m + n
}

/// `2 * n`.
pub(crate) fn twice(n: i128) -> i128
    requires { unsigned_abs n ≤ 2 ^ 116 }
    ensures value { result ≡ pos 2 *ℤ n }
    ensures bound { unsigned_abs result ≤ 2 ^ 117 }
{
    2 * n
}

/// `m * n`.
pub(crate) fn product(m: i128, n: i128) -> i128
    requires few_bits { unsigned_abs m ≤ 2 ^ 80 }
    requires few_bits_other { unsigned_abs n ≤ 2 ^ 36 }
    ensures value { result ≡ m *ℤ n }
    ensures bound { unsigned_abs result ≤ 2 ^ 116 }
{
    m * n
}

/// `m * m`.
fn square(m: u128) -> u128
    requires { m ≤ 2 ^ 63 }
    ensures value { result ≡ m * m }
    ensures bound { result ≤ 2 ^ 126 }
{
    m * m
}

/// `n * 2^k`.
fn scaled(n: i128, k: u8) -> i128
    requires few_bits { unsigned_abs n ≤ 2 ^ 80 }
    requires few_places { k ≤ 20 }
    ensures value { result ≡ n *ℤ power k }
    ensures bound { unsigned_abs result ≤ 2 ^ 100 }
{
    n * power_of_two(k)
}

/// `m * 2^k + n * 2^j`, a numerator of the sum of `m / 2^j` and `n / 2^k`.
pub(crate) fn cross_sum(m: i128, j: u8, n: i128, k: u8) -> i128
    requires few_bits { unsigned_abs m ≤ 2 ^ 80 }
    requires few_bits_other { unsigned_abs n ≤ 2 ^ 80 }
    requires few_places { j ≤ 20 }
    requires few_places_other { k ≤ 20 }
    ensures { result ≡ m *ℤ power k +ℤ n *ℤ power j }
{
    sum(scaled(m, k), scaled(n, j))
}

/// The sign of `a + b * sqrt 2`.
pub(crate) fn sign_of_parts(a: i128, b: i128) -> Sgn
    requires few_bits_a { unsigned_abs a ≤ 2 ^ 63 }
    requires few_bits_b { unsigned_abs b ≤ 2 ^ 63 }
    ensures { result ≡ root_sign a b }
{
    if a >= 0 && b >= 0 {
        return if a == 0 && b == 0 {
            Sgn::Zero
        } else {
            Sgn::Pos
        };
    }
    if a < 0 && b < 0 {
        return Sgn::Neg;
    }
    let whole_wins = 2 * square(b.unsigned_abs()) < square(a.unsigned_abs());
    if (a >= 0) == whole_wins {
        Sgn::Pos
    } else {
        Sgn::Neg
    }
}

/// Whether 2 divides `n`.
pub(crate) fn is_even(n: i128) -> bool
    ensures { IsTrue result ↔ (unsigned_abs n % 2 ≡ 0) }
{
    n.unsigned_abs() % 2 == 0
}

/// Half of an even number.
pub(crate) fn halved(n: i128) -> i128
    requires { unsigned_abs n % 2 ≡ 0 }
    ensures { n ≡ pos 2 *ℤ result }
{
    n / 2
}
