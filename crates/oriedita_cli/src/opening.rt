//! The commands of the file that the words name.

ghost use Rattle.std.specs.Prelude.{◌≡◌, ◌≢◌, ◌∷◌, [], ◌+◌, ◌≤◌, None, Some, Err, IfOk, IsSome, OnErr, length, option_map, string_bytes};
ghost use Rattle.oriedita_io.specs.Faults.{Rose};
ghost use Rattle.oriedita_io.specs.Told.{ReadsUpTo};
ghost use Rattle.script_lang.specs.Script.{file_command};
ghost use Rattle.oriedita_cli.specs.Clauses.{IsFirst, IsTooLong, script_limit};

use oriedita_io::{LONGEST_INPUT, OpenFault, Opener};
use script_lang::{Commands, read_file};
use std::alloc::{AllocError, Global};

/// Why a file gives no command.
#[derive(Clone, Copy, Debug, PartialEq, Eq)]
pub(crate) enum Unread {
    /// It could not be opened, or a read of it failed.
    Failed,
    TooLong,
    Memory,
}

impl From<AllocError> for Unread {
    ghost use Rattle.std.specs.Prelude.{◌≡◌};
    ghost use Rattle.oriedita_cli.specs.declared.opening.Unread.TheVariants.{Memory};

    ghost from_gives = { λ _ fault. fault ≡ Memory };

    fn from(_e: AllocError) -> Unread {
        Unread::Memory
    }
}

impl From<OpenFault> for Unread {
    ghost use Rattle.std.specs.Prelude.{◌≡◌};
    ghost use Rattle.oriedita_cli.specs.Opening.{unread_of};

    ghost from_gives = { λ fault unread. unread ≡ unread_of fault };

    fn from(fault: OpenFault) -> Unread {
        match fault {
            OpenFault::Failed => Unread::Failed,
            OpenFault::Memory => Unread::Memory,
        }
    }
}

// The bytes of a file that is not too long.
fn read_whole_file<O: Opener>(alloc: Global, path: &str, files: &mut O) -> Result<Vec<u8>, Unread>
    ensures ok { IfOk result (λ bytes. ReadsUpTo (O.file files.old path.now) (script_limit + 1) bytes.items) }
    ensures size { IfOk result (λ bytes. length bytes.items ≤ script_limit) }
    ensures failed { result ≡ Err Unread.Failed → Rose (O.faults files.old) (O.faults files.new) }
    ensures long { result ≡ Err Unread.TooLong → IsTooLong (O.file files.old) (Some path.now) }
    ensures faults_stay { result ≢ Err Unread.Failed → O.faults files.new ≡ O.faults files.old }
    ensures faults_rise { O.faults files.old ≤ O.faults files.new }
{
    let bytes = files.read_up_to(alloc, path, LONGEST_INPUT + 1)?;
    if bytes.len() > LONGEST_INPUT {
        return Err(Unread::TooLong);
    }
    Ok(bytes)
}

fn file_commands(alloc: Global, bytes: &[u8]) -> Result<Commands, AllocError>
    requires { length bytes.now ≤ script_limit }
    ensures { IfOk result (λ first. first ≡ file_command bytes.now ∷ []) }
{
    let command = read_file(alloc, bytes)?;
    let mut list = Vec::new(alloc);
    list.push(command)?;
    Ok(Commands::of(list))
}

// The command of the file at a path.
fn load_file<O: Opener>(alloc: Global, path: &str, files: &mut O) -> Result<Commands, Unread>
    ensures ok { IfOk result (λ first. IsFirst (O.file files.old) (Some path.now) first) }
    ensures failed { result ≡ Err Unread.Failed → Rose (O.faults files.old) (O.faults files.new) }
    ensures long { result ≡ Err Unread.TooLong → IsTooLong (O.file files.old) (Some path.now) }
    ensures faults_stay { result ≢ Err Unread.Failed → O.faults files.new ≡ O.faults files.old }
    ensures faults_rise { O.faults files.old ≤ O.faults files.new }
{
    let bytes = read_whole_file(alloc, path, files)?;
    let first = file_commands(alloc, bytes.as_slice())?;
    Ok(first)
}

/// The commands that come first: none, or that of the file that is named.
pub(crate) fn first_commands<O: Opener>(
    alloc: Global,
    path: &Option<String>,
    files: &mut O,
) -> Result<Commands, Unread>
    ensures ok { IfOk result (λ first. IsFirst (O.file files.old) (option_map string_bytes path.now) first) }
    ensures failed { result ≡ Err Unread.Failed → Rose (O.faults files.old) (O.faults files.new) }
    ensures long { result ≡ Err Unread.TooLong
        → IsTooLong (O.file files.old) (option_map string_bytes path.now) }
    ensures named { OnErr result (IsSome path.now) }
    ensures unopened { path.now ≡ None → files.new ≡ files.old }
    ensures faults_stay { result ≢ Err Unread.Failed → O.faults files.new ≡ O.faults files.old }
    ensures faults_rise { O.faults files.old ≤ O.faults files.new }
{
    match path {
        Some(path) => load_file(alloc, path.as_str(), files),
        None => Ok(Commands::of(Vec::new(alloc))),
    }
}
