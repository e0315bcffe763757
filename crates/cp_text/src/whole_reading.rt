//! Whole numbers read from text.

ghost use Rattle.std.specs.Prelude.{◌≡◌, ◌<◌, ◌≤◌, ◌^◌, IfSome};
ghost use Rattle.cp_text.specs.WholeNumber.{number_between, digits_read, whole_read};

use crate::number_reading::{bounded_value, exact_value, is_digits};

/// The most digits of a whole number, leading zeros among them.
const MOST_DIGITS: usize = 10;

// A number within limits, the limits among them.
fn number_between(least: u64, most: u64, n: u64) -> Option<u64>
    ensures exact { result ≡ number_between least most n }
    ensures range { IfSome result (λ n. (least ≤ n) × (n ≤ most)) }
{
    if least <= n && n <= most {
        Some(n)
    } else {
        None
    }
}

/// The whole number that a word of one to ten digits is, where it is from `least` to `most`.
pub fn read_whole(word: &[u8], least: u64, most: u64) -> Option<u64>
    ensures exact { result ≡ whole_read least most word.now }
    ensures range { IfSome result (λ n. (least ≤ n) × (n ≤ most)) }
{
    if !is_digits(word) || word.len() > MOST_DIGITS {
        return None;
    }
    number_between(least, most, exact_value(word))
}

/// The whole number that a word of digits is, however many zeros it begins with, where it is from `least` to `most`.
#[tactic(auto, using(crate::proofs::WholeNumbers::bounded_between))]
pub fn read_digits(word: &[u8], least: u64, most: u64) -> Option<u64>
    requires { most < 2 ^ 37 }
    ensures exact { result ≡ digits_read least most word.now }
    ensures range { IfSome result (λ n. (least ≤ n) × (n ≤ most)) }
{
    if !is_digits(word) {
        return None;
    }
    number_between(least, most, bounded_value(word))
}
