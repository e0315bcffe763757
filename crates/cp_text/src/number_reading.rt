//! Exact numbers read from text.

ghost use Rattle.std.specs.Prelude.{◌≡◌, ◌+◌, ◌*◌, ◌-◌, ◌^◌, ◌<◌, ◌≤◌, List, take, drop, length, min, IsTrue, IfSome, MatchOption, option_map};
ghost use Rattle.cp_text.specs.Digits.{is_digit, is_digits, digits_value, leading_digits, behind_digits, without_zeros};
ghost use Rattle.cp_text.specs.NumberWord.{with_fraction, behind_whole, with_whole, decimal_at, Rational, Root, Both, is_root_mark, second_part, behind_first, has_minus, behind_minus, is_power, is_power_mark};
ghost use Rattle.cp_text.specs.NumberReading.{decimal_of, exact_parts, fraction_parts, signed, bounded, decimal_parts, surd_answer, parts_read, word_value, word_read, number_read};
ghost use Rattle.surd_number.specs.Exact.{surd_of};

use surd_number::{OutOfRange, Surd};
use thiserror::Error;

/// Why a word is no number.
#[derive(Clone, Copy, Debug, PartialEq, Eq, Error)]
pub enum NumberFault {
    #[error("not a number")]
    Bad,
    /// Exponent notation, or a decimal that is no multiple of a power of one half up to the sixteenth.
    #[error("the number is not exact")]
    NotExact,
    #[error("the number is out of range")]
    OutOfRange,
}

impl From<OutOfRange> for NumberFault {
    ghost use Rattle.std.specs.Prelude.{◌≡◌};
    ghost use Rattle.cp_text.specs.declared.number_reading.NumberFault.TheVariants.{OutOfRange};

    ghost from_gives = { λ _ e. e ≡ OutOfRange };

    fn from(_fault: OutOfRange) -> NumberFault {
        NumberFault::OutOfRange
    }
}

/// Above every whole part of a stored number.
const LARGE: u64 = 1 << 37;

fn is_digit(b: u8) -> bool
    ensures { result ≡ is_digit b }
{
    b >= b'0' && b <= b'9'
}

/// Whether the word is one or more digits alone.
pub fn is_digits(word: &[u8]) -> bool
    ensures { result ≡ is_digits word.now }
{
    for b in word {
        if !is_digit(*b) {
            return false;
        }
    }
    !word.is_empty()
}

// How many digits the text begins with.
fn digits_len(text: &[u8]) -> usize
    ensures bound { result ≤ length text.now }
    ensures digits { take result text.now ≡ leading_digits text.now }
    ensures rest { drop result text.now ≡ behind_digits text.now }
{
    for (i, b) in text.iter().enumerate() {
        if !is_digit(*b) {
            return i;
        }
    }
    text.len()
}

fn digit_value(b: u8) -> u64
    ensures value { result ≡ b - 48 }
    ensures bound { result ≤ 207 }
{
    u64::from(b.saturating_sub(b'0'))
}

// The value of digits, or a large number where it is greater.
pub(crate) fn bounded_value(digits: &[u8]) -> u64
    ensures { result ≡ min (digits_value 0 digits.now) LARGE }
{
    let mut n: u64 = 0;
    for b in digits {
        n = (10 * n + digit_value(*b)).min(LARGE);
    }
    n
}

// The value of up to 16 digits.
#[tactic(auto, using(crate::proofs::Fractions::ten_fits))]
pub(crate) fn exact_value(digits: &[u8]) -> u64
    requires { length digits.now ≤ 16 }
    ensures value { result ≡ digits_value 0 digits.now }
    ensures bound { result + 23 ≤ 23 * 10 ^ length digits.now }
{
    let mut n: u64 = 0;
    for b in digits {
        n = 10 * n + digit_value(*b);
    }
    n
}

fn trim_zeros(digits: &[u8]) -> &[u8]
    ensures { result.now ≡ without_zeros digits.now }
{
    let mut end = digits.len();
    while end > 0 && digits[end - 1] == b'0' {
        end -= 1;
    }
    &digits[..end]
}

#[tactic(auto, using(crate::proofs::Fractions::five_fits, crate::proofs::DigitValues::five_positive, crate::proofs::DigitValues::parts_fit))]
fn read_exact(digits: &[u8]) -> Option<u64>
    ensures { result ≡ exact_parts digits.now }
{
    if digits.len() > 16 {
        return None;
    }
    let n = exact_value(digits);
    let power = 5u64.pow(digits.len() as u32);
    if n % power != 0 {
        return None;
    }
    Some(n / power << (16 - digits.len()))
}

fn read_fraction(digits: &[u8]) -> Option<u64>
    ensures { result ≡ fraction_parts digits.now }
{
    read_exact(trim_zeros(digits))
}

/// A decimal that a text begins with, and the text behind it.
#[derive(Clone, Copy)]
struct Scanned<'a> {
    whole: &'a [u8],
    fraction: &'a [u8],
    rest: &'a [u8],
}

fn scan_fraction<'a>(whole: &'a [u8], text: &'a [u8]) -> Option<Scanned<'a>>
    ensures { let scan = with_fraction whole.now (leading_digits text.now) (behind_digits text.now) in
        MatchOption result (scan ≡ None)
        (λ s. scan ≡ Some (record { whole = s.whole.now; fraction = s.fraction.now; rest = s.rest.now })) }
{
    let end = digits_len(text);
    if end == 0 {
        return None;
    }
    Some(Scanned {
        whole,
        fraction: &text[..end],
        rest: &text[end..],
    })
}

fn scan_behind_whole<'a>(whole: &'a [u8], text: &'a [u8]) -> Option<Scanned<'a>>
    ensures { let scan = behind_whole whole.now text.now in
        MatchOption result (scan ≡ None)
        (λ s. scan ≡ Some (record { whole = s.whole.now; fraction = s.fraction.now; rest = s.rest.now })) }
{
    match text {
        [b'.', behind @ ..] => scan_fraction(whole, behind),
        _ => Some(Scanned {
            whole,
            fraction: &whole[..0],
            rest: text,
        }),
    }
}

fn scan_decimal(text: &[u8]) -> Option<Scanned<'_>>
    ensures { let scan = decimal_at text.now in
        MatchOption result (scan ≡ None)
        (λ s. scan ≡ Some (record { whole = s.whole.now; fraction = s.fraction.now; rest = s.rest.now })) }
{
    let digits = digits_len(text);
    if digits == 0 {
        return None;
    }
    scan_behind_whole(&text[..digits], &text[digits..])
}

/// A decimal with its sign.
#[derive(Clone, Copy)]
struct Part<'a> {
    negative: bool,
    whole: &'a [u8],
    fraction: &'a [u8],
}

// A number of parts of 2^16, or a large one where it is greater.
fn bounded_parts(digits: &[u8], parts: u64) -> u64
    ensures { result ≡ min (digits_value 0 digits.now * 2 ^ 16 + parts) (2 ^ 53) }
{
    (bounded_value(digits) << 16)
        .saturating_add(parts)
        .min(1 << 53)
}

fn with_sign(negative: bool, n: u64) -> i64
    requires { n ≤ 2 ^ 53 }
    ensures { result ≡ signed negative n }
{
    if negative { -(n as i64) } else { n as i64 }
}

#[tactic(auto, using(crate::proofs::Bounds::signed_bounded))]
fn read_part(part: &Part<'_>) -> Option<i64>
    ensures { result ≡ option_map bounded (decimal_parts (decimal_of part.now)) }
{
    match read_fraction(part.fraction) {
        Some(parts) => Some(with_sign(part.negative, bounded_parts(part.whole, parts))),
        None => None,
    }
}

#[tactic(auto, using(crate::proofs::Bounds::surd_of_exactly))]
fn read_sum(a: Option<i64>, b: Option<i64>) -> Result<Surd, NumberFault>
    ensures { result ≡ parts_read a b }
{
    match (a, b) {
        (Some(a), Some(b)) => {
            let n = Surd::new(a, b, 16)?;
            Ok(n)
        }
        _ => Err(NumberFault::NotExact),
    }
}

#[tactic(auto, using(crate::proofs::Bounds::rational_bounded))]
fn read_rational(part: &Part<'_>) -> Result<Surd, NumberFault>
    ensures { result ≡ word_value (Rational (decimal_of part.now)) }
{
    read_sum(read_part(part), Some(0))
}

#[tactic(auto, using(crate::proofs::Bounds::root_bounded))]
fn read_root(part: &Part<'_>) -> Result<Surd, NumberFault>
    ensures { result ≡ word_value (Root (decimal_of part.now)) }
{
    read_sum(Some(0), read_part(part))
}

#[tactic(auto, using(crate::proofs::Bounds::parts_read_bounded))]
fn read_both(first: &Part<'_>, second: &Part<'_>) -> Result<Surd, NumberFault>
    ensures { result ≡ word_value (Both (decimal_of first.now) (decimal_of second.now)) }
{
    read_sum(read_part(first), read_part(second))
}

fn is_root_mark(text: &[u8]) -> bool
    ensures { result ≡ is_root_mark text.now }
{
    text == b"r2".as_slice()
}

// The second decimal and `r2`.
fn read_second(first: &Part<'_>, negative: bool, text: &[u8]) -> Result<Surd, NumberFault>
    ensures { result ≡ word_read (second_part (decimal_of first.now) negative (decimal_at text.now)) }
{
    match scan_decimal(text) {
        Some(scan) => {
            if !is_root_mark(scan.rest) {
                return Err(NumberFault::Bad);
            }
            let second = Part {
                negative,
                whole: scan.whole,
                fraction: scan.fraction,
            };
            read_both(first, &second)
        }
        None => Err(NumberFault::Bad),
    }
}

// What stands behind the first decimal.
fn read_behind(first: &Part<'_>, text: &[u8]) -> Result<Surd, NumberFault>
    ensures { result ≡ word_read (behind_first (decimal_of first.now) text.now) }
{
    if text.is_empty() {
        return read_rational(first);
    }
    if is_root_mark(text) {
        return read_root(first);
    }
    match text {
        [b'+', second @ ..] => read_second(first, false, second),
        [b'-', second @ ..] => read_second(first, true, second),
        _ => Err(NumberFault::Bad),
    }
}

// An optional sign and digits to the end.
fn is_power(text: &[u8]) -> bool
    ensures { result ≡ is_power text.now }
{
    match text {
        [b'+' | b'-', digits @ ..] => is_digits(digits),
        _ => is_digits(text),
    }
}

fn is_power_mark(text: &[u8]) -> bool
    ensures { result ≡ is_power_mark text.now }
{
    match text {
        [b'e' | b'E', power @ ..] => is_power(power),
        _ => false,
    }
}

fn split_minus(text: &[u8]) -> (bool, &[u8])
    ensures sign { result.0 ≡ has_minus text.now }
    ensures rest { result.1.now ≡ behind_minus text.now }
{
    match text {
        [b'-', rest @ ..] => (true, rest),
        _ => (false, text),
    }
}

/// The number that a word is: an optional minus sign and a decimal, the same and `r2`, or both, as `12.5-0.25r2`.
/// `NotExact` stands for exponent notation, and for a fraction that is no multiple of `1/2^16`; `OutOfRange` for an
/// exact value that is no `Surd`.
#[tactic(auto, unfolding(crate::specs::NumberReading::number_read))]
pub fn read_number(text: &[u8]) -> Result<Surd, NumberFault>
    ensures { result ≡ number_read text.now }
{
    let (negative, unsigned) = split_minus(text);
    match scan_decimal(unsigned) {
        Some(scan) => {
            if is_power_mark(scan.rest) {
                return Err(NumberFault::NotExact);
            }
            let first = Part {
                negative,
                whole: scan.whole,
                fraction: scan.fraction,
            };
            read_behind(&first, scan.rest)
        }
        None => Err(NumberFault::Bad),
    }
}
