//! What is read before the first command is answered: the script, behind the file that the words name, or nothing for a
//! sample.

ghost use Rattle.std.specs.Prelude.{◌≡◌, ℕ, ◌<◌, ◌≤◌, ◌↔◌, ◌⊎◌, List, None, length, IsSome, option_map, string_bytes};
ghost use Rattle.std.specs.Io.KnownBytes.{Consumes, IsAtEnd};
ghost use Rattle.oriedita_io.specs.Faults.{Rose};
ghost use Rattle.oriedita_cli.specs.Clauses.{script_limit};
ghost use Rattle.oriedita_cli.specs.Reading.{IsReadBehind, IsReading, IsUntouched, IsWhole};

use crate::lines::whole_lines;
use crate::opening::{Unread, first_commands};
use crate::running::{NO_MEMORY, TOO_LONG};
use oriedita_io::{Input, InputEnd, LONGEST_INPUT, Opener, Source, read_all};
use program_words::Options;
use script_lang::{Commands, read_script_behind};
use std::alloc::Global;

/// What there is to answer.
#[derive(Drop)]
pub(crate) enum Reading {
    Whole(Commands),
    /// A read fault ended the bytes of the script.
    Cut(Commands),
    /// The script is too long, or memory was refused; the exit status.
    Nothing(u8),
    /// The file gave no command, so no script was read.
    NoFile(Unread),
    /// A sample is to be folded, and nothing was read.
    Sample(u32),
}

// The commands of a script that was read, behind the first ones. Of bytes that a read fault ended, the whole lines are the
// script.
fn commands_behind(alloc: Global, first: Commands, input: &Input) -> Reading
    requires { (input.now.end ≡ InputEnd.More) ↔ (script_limit < length input.now.bytes.items) }
    ensures reading { (faults faults' : ℕ) → (input.now.end ≡ InputEnd.Failed → Rose faults faults')
        → IsReadBehind first result input.now.bytes.items faults faults' }
    ensures ended { IsWhole result → input.now.end ≡ InputEnd.Ended }
{
    let bytes = input.bytes.as_slice();
    match input.end {
        InputEnd::Ended => match read_script_behind(alloc, first, bytes) {
            Ok(commands) => Reading::Whole(commands),
            Err(_) => Reading::Nothing(NO_MEMORY),
        },
        InputEnd::Failed => match read_script_behind(alloc, first, whole_lines(bytes)) {
            Ok(commands) => Reading::Cut(commands),
            Err(_) => Reading::Nothing(NO_MEMORY),
        },
        InputEnd::More => Reading::Nothing(TOO_LONG),
    }
}

// Reads the whole script.
fn read_behind<S: Source>(alloc: Global, first: Commands, script: &mut S) -> Reading
    ensures reading { (bytes : List ℕ) × Consumes (S.left script.old) (S.left script.new) bytes
        × IsReadBehind first result bytes (S.faults script.old) (S.faults script.new) }
    ensures read_to_its_end { IsWhole result → IsAtEnd (S.left script.new) }
    ensures faults_stay { IsWhole result → S.faults script.new ≡ S.faults script.old }
    ensures faults_rise { S.faults script.old ≤ S.faults script.new }
{
    match read_all(alloc, script, LONGEST_INPUT) {
        Ok(input) => commands_behind(alloc, first, &input),
        Err(_) => Reading::Nothing(NO_MEMORY),
    }
}

/// Reads the file that is named, where one is, and then the whole script; nothing where the options name a sample.
pub(crate) fn read_commands<S: Source, O: Opener>(
    alloc: Global,
    options: &Options,
    script: &mut S,
    files: &mut O,
) -> Reading
    ensures reading { (bytes : List ℕ) × Consumes (S.left script.old) (S.left script.new) bytes
        × IsReading (O.file files.old) options.now.sample (option_map string_bytes options.now.cp) result
        bytes (O.faults files.old) (O.faults files.new) (S.faults script.old) (S.faults script.new) }
    ensures unopened { (IsSome options.now.sample ⊎ (options.now.cp ≡ None)) → files.new ≡ files.old }
    ensures untouched { IsUntouched result → script.new ≡ script.old }
    ensures read_to_its_end { IsWhole result → IsAtEnd (S.left script.new) }
    ensures faults_stay { IsWhole result → (S.faults script.new ≡ S.faults script.old)
        × (O.faults files.new ≡ O.faults files.old) }
    ensures faults_rise { (S.faults script.old ≤ S.faults script.new)
        × (O.faults files.old ≤ O.faults files.new) }
{
    if let Some(n) = options.sample {
        return Reading::Sample(n);
    }
    match first_commands(alloc, &options.cp, files) {
        Ok(first) => read_behind(alloc, first, script),
        Err(fault) => Reading::NoFile(fault),
    }
}
