//! The options of the program.

ghost use Rattle.std.specs.Prelude.{◌≡◌, ◌↔◌, None, Err, map, option_map, string_bytes, IfOk, IsSomeAnd};
ghost use Rattle.program_words.specs.ProgramWords.{Says, IsWithinLimits, said_of};
ghost use Rattle.program_words.specs.Views.{accepted_by};

use crate::meaning::{Accepted, are_accepted, meaning_of};
use crate::parsing::matched_values;
use clap::error::ErrorKind;
use std::alloc::{AllocError, Global};
use thiserror::Error;

/// The workers where no word tells their number.
const USUAL_WORKERS: u32 = 2;

/// What the words say.
#[derive(Debug, Drop)]
pub struct Options {
    /// The file of the crease pattern to begin with.
    pub cp: Option<String>,
    /// How many threads search, 0 to 8.
    pub workers: u32,
    /// The sample pattern to fold in place of a script, 1 to 3.
    pub sample: Option<u32>,
}

/// Why words give no options.
#[derive(Clone, Copy, Debug, PartialEq, Eq, Error)]
pub enum WordsFault {
    #[error("the words are not accepted")]
    BadWords,
    #[error("out of memory")]
    Memory,
}

impl From<AllocError> for WordsFault {
    ghost use Rattle.std.specs.Prelude.{◌≡◌};
    ghost use Rattle.program_words.specs.declared.options.WordsFault.TheVariants.{Memory};

    ghost from_gives = { λ _ fault. fault ≡ Memory };

    fn from(_e: AllocError) -> WordsFault {
        WordsFault::Memory
    }
}

impl From<clap::Error> for WordsFault {
    ghost use Rattle.std.specs.Prelude.{◌≡◌, ◌↔◌};
    ghost use Rattle.clap.specs.Words.{kind_of};
    ghost use Rattle.clap.specs.declared.error.kind.ErrorKind.TheVariants.{OutOfMemory};
    ghost use Rattle.program_words.specs.declared.options.WordsFault.TheVariants.{Memory};

    ghost from_gives = { λ e fault. (fault ≡ Memory) ↔ (kind_of e ≡ OutOfMemory) };

    fn from(e: clap::Error) -> WordsFault {
        match e.kind() {
            ErrorKind::OutOfMemory => WordsFault::Memory,
            _ => WordsFault::BadWords,
        }
    }
}

fn own_path(alloc: Global, path: Option<&str>) -> Result<Option<String>, AllocError>
    ensures { IfOk result (λ own. option_map string_bytes own ≡ option_map (λ s. s.now) path.entry) }
{
    match path {
        Some(path) => {
            let own = String::from_str(alloc, path)?;
            Ok(Some(own))
        }
        None => Ok(None),
    }
}

fn options_of(alloc: Global, accepted: Accepted<'_>) -> Result<Options, AllocError>
    ensures { IfOk result (λ o. Says o (accepted_by accepted.entry)) }
{
    let workers = match accepted.workers {
        Some(workers) => workers,
        None => USUAL_WORKERS,
    };
    Ok(Options {
        cp: own_path(alloc, accepted.cp)?,
        workers,
        sample: accepted.sample,
    })
}

/// The options that the words after the program's name say: each option at most once, its value in the next word or
/// after an `=` in its own, a value that is not empty and does not begin with `-`, numbers in plain digits within their
/// limits, and no file beside a sample. Other words are `BadWords`. They are judged before `clap` parses them, so that
/// they are refused also where memory is.
pub fn read_words(alloc: Global, words: &[String]) -> Result<Options, WordsFault>
    ensures said { IfOk result (λ o. IsSomeAnd (said_of (map string_bytes words.now)) (Says o)) }
    ensures limits { IfOk result IsWithinLimits }
    ensures refused { (result ≡ Err WordsFault.BadWords) ↔ (said_of (map string_bytes words.now) ≡ None) }
{
    if !are_accepted(words) {
        return Err(WordsFault::BadWords);
    }
    let values = matched_values(alloc, words)?;
    let Some(accepted) = meaning_of(values) else {
        return Err(WordsFault::BadWords);
    };
    let options = options_of(alloc, accepted)?;
    Ok(options)
}
