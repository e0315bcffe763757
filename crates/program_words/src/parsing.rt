//! The words parsed by `clap`.

ghost use Rattle.std.specs.Prelude.{◌≡◌, true, map, Some, is_some, string_bytes, IfOk, IfErr};
ghost use Rattle.clap.specs.Words.{app_of, kind_of};
ghost use Rattle.program_words.specs.ProgramWords.{values_of};
ghost use Rattle.program_words.specs.Parser.{program_app, words_app};
ghost use Rattle.program_words.specs.Views.{values_by};

use crate::form::OptionValues;
use clap::error::ErrorKind;
use clap::{Arg, Command, Error};
use std::alloc::{AllocError, Global};

// A command with no flags of its own, of words without the program's name.
fn program<'a>(alloc: Global) -> Command<'a>
    ensures app { app_of result ≡ program_app }
{
    Command::new(alloc, "oriedita")
        .no_binary_name(true)
        .disable_help_flag(true)
        .disable_version_flag(true)
}

// The command line's parser: three options that each take one value.
fn command<'a>(alloc: Global) -> Result<Command<'a>, AllocError>
    ensures { IfOk result (λ c. app_of c ≡ words_app) }
{
    program(alloc)
        .arg(Arg::new(alloc, "cp").long("cp"))?
        .arg(Arg::new(alloc, "workers").long("workers"))?
        .arg(Arg::new(alloc, "sample").long("sample"))
}

/// The values that the matches of the words have. A parse of words that have the form fails for want of memory alone.
pub(crate) fn matched_values<'a>(
    alloc: Global,
    words: &'a [String],
) -> Result<OptionValues<'a>, Error>
    requires { is_some (values_of (map string_bytes words.now)) ≡ true }
    ensures values { IfOk result (λ v. Some (values_by v) ≡ values_of (map string_bytes words.now)) }
    ensures memory { IfErr result (λ e. kind_of e ≡ ErrorKind.OutOfMemory) }
{
    let matches = command(alloc)?.try_get_matches_from(words)?;
    Ok(OptionValues {
        cp: matches.get_str("cp"),
        workers: matches.get_str("workers"),
        sample: matches.get_str("sample"),
    })
}
