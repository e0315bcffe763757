//! What the options' values say.

ghost use Rattle.std.specs.Prelude.{◌≡◌, ◌<◌, ◌≤◌, ◌^◌, IfSome, map, option_map, is_some, string_bytes};
ghost use Rattle.program_words.specs.ProgramWords.{number_said, said_apart, meaning_of, said_of};
ghost use Rattle.program_words.specs.Views.{values_by, accepted_by};

use crate::form::{OptionValues, values_of};
use cp_text::read_digits;

/// The most workers.
const MOST_WORKERS: u64 = 8;

/// The greatest sample.
const MOST_SAMPLE: u64 = 3;

/// What values say.
#[derive(Clone, Copy)]
pub(crate) struct Accepted<'a> {
    pub cp: Option<&'a str>,
    pub workers: Option<u32>,
    pub sample: Option<u32>,
}

// The number that a value says, where there is a value.
fn number_said(value: Option<&str>, least: u64, most: u64) -> Option<Option<u32>>
    requires { most < 2 ^ 31 }
    ensures exact { result ≡ number_said least most (option_map (λ s. s.now) value.entry) }
    ensures range { IfSome result (λ said. IfSome said (λ n. (least ≤ n) × (n ≤ most))) }
{
    match value {
        Some(value) => {
            let n = read_digits(value.as_bytes(), least, most)?;
            Some(Some(n as u32))
        }
        None => Some(None),
    }
}

fn said_apart<'a>(said: Accepted<'a>) -> Option<Accepted<'a>>
    ensures exact { option_map accepted_by result ≡ said_apart (accepted_by said.entry) }
    ensures same { IfSome result (λ a. a ≡ said.entry) }
{
    if said.sample.is_some() && said.cp.is_some() {
        return None;
    }
    Some(said)
}

/// What values say, where their numbers are within limits, and no file stands beside a sample.
pub(crate) fn meaning_of<'a>(values: OptionValues<'a>) -> Option<Accepted<'a>>
    ensures exact { option_map accepted_by result ≡ meaning_of (values_by values.entry) }
    ensures limits { IfSome result (λ a. IfSome a.workers (λ n. n ≤ 8)
        × IfSome a.sample (λ n. (1 ≤ n) × (n ≤ 3))) }
{
    let workers = number_said(values.workers, 0, MOST_WORKERS)?;
    let sample = number_said(values.sample, 1, MOST_SAMPLE)?;
    said_apart(Accepted {
        cp: values.cp,
        workers,
        sample,
    })
}

/// Whether the words are accepted.
#[tactic(auto, unfolding(crate::specs::ProgramWords::said_of))]
pub(crate) fn are_accepted(words: &[String]) -> bool
    ensures { result ≡ is_some (said_of (map string_bytes words.now)) }
{
    match values_of(words) {
        Some(values) => meaning_of(values).is_some(),
        None => false,
    }
}
