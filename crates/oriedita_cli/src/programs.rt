//! The whole program on a runtime: its words, files, standard input and output, and the exit status.

ghost use Rattle.std.specs.Prelude.{◌≡◌, ◌≤◌, ◌↔◌, ◌⊎◌, [], IfErr, IfOk};
ghost use Rattle.std.specs.IoError.{error_kind};
ghost use Rattle.std.specs.Process.{exit_status};
ghost use Rattle.std.specs.Vec.Iter.{into_iter_items};
ghost use Rattle.job_register.specs.View.{record_events};
ghost use Rattle.job_register.specs.FoldingRecords.{EnumeratesOrders};
ghost use Rattle.job_register.specs.Legal.{IsLegal};
ghost use Rattle.oriedita_cli.specs.Clauses.{AnswersInput, IsOutput, IsStatus, faults_of, written_text};
ghost use Rattle.oriedita_cli.specs.Words.{AreJudged, behind_first, file_named, sample_named, words_told};

use crate::running::{BAD_WORDS, Ended, NO_MEMORY, ended_without, run};
use job_register::laws::records_enumerate;
use oriedita_io::{FileOpener, Opener, Sink, Source, StdinSource, StdoutSink};
use std::alloc::{AllocError, Global};
use std::env::Args;
use std::io::ErrorKind;
use std::process::ExitCode;
use std::rt::{Env, Files};
use std::sync::Wait;
use std::thread::Threads;
use std::{env, io};
use task_board::{Gate, NoGate};

// The arguments without the first one, which is the program's name.
fn words_after_name(alloc: Global, mut arguments: Args) -> Result<Vec<String>, AllocError>
    ensures { IfOk result (λ words. words.items ≡ behind_first (into_iter_items arguments)) }
{
    let _name = arguments.next();
    let mut words = Vec::new(alloc);
    for word in arguments {
        words.push(word)?;
    }
    Ok(words)
}

// [`run`] on arguments that were told, the program's name first.
fn run_told<R: Threads + Wait + Sync, S: Source, O: Opener, K: Sink, G: Gate + Sync>(
    rt: &R,
    alloc: Global,
    arguments: Args,
    script: &mut S,
    files: &mut O,
    out: &mut K,
    gate: &G,
) -> Ended
    ensures legal { IsLegal 1 (record_events result.events) }
    ensures enumeration { EnumeratesOrders 1 (record_events result.events) }
    ensures input { AnswersInput (O.file files.old) (sample_named (words_told arguments))
        (file_named (words_told arguments)) result.status (record_events result.events) script.old script.new
        files.old files.new (S.left script.old) (S.left script.new) (O.faults files.old) (O.faults files.new)
        (S.faults script.old) (S.faults script.new) }
    ensures output { IsOutput result.status
        (written_text (sample_named (words_told arguments)) (record_events result.events))
        (K.taken out.old) (K.taken out.new) (K.finished out.new) }
    ensures status { IsStatus result.status (record_events result.events)
        (file_named (words_told arguments))
        (faults_of (S.faults script.old) (O.faults files.old) (K.faults out.old))
        (faults_of (S.faults script.new) (O.faults files.new) (K.faults out.new)) }
    ensures words { AreJudged (words_told arguments) result.status }
    ensures untouched { result.status ≡ BAD_WORDS
        → (script.new ≡ script.old) × (files.new ≡ files.old) × (out.new ≡ out.old) }
{
    records_enumerate();
    match words_after_name(alloc, arguments) {
        Ok(words) => run(rt, alloc, words.as_slice(), script, files, out, gate),
        Err(_) => ended_without(alloc, NO_MEMORY),
    }
}

// The status of a run whose words can't be told: they are refused, unless memory was wanted for them.
fn untold(error: &io::Error) -> u8
    ensures status { (result ≡ BAD_WORDS) ⊎ (result ≡ NO_MEMORY) }
    ensures memory { (result ≡ NO_MEMORY) ↔ (error_kind error.now ≡ ErrorKind.OutOfMemory) }
{
    if error.kind() == ErrorKind::OutOfMemory {
        NO_MEMORY
    } else {
        BAD_WORDS
    }
}

/// [`run`] on the arguments that a process has, its name first, as `env::args` tells them. Where the system can't tell
/// them, as where one is not UTF-8, the words are refused.
pub fn run_arguments<R: Threads + Wait + Sync, S: Source, O: Opener, K: Sink, G: Gate + Sync>(
    rt: &R,
    alloc: Global,
    arguments: io::Result<Args>,
    script: &mut S,
    files: &mut O,
    out: &mut K,
    gate: &G,
) -> Ended
    // The record clause.
    ensures legal { IsLegal 1 (record_events result.events) }

    // The enumeration clause: each folding job shows the layer orders of the version that it names.
    ensures enumeration { EnumeratesOrders 1 (record_events result.events) }

    // The input, the output and the status clause, for the words that were told.
    ensures input { IfOk arguments (λ told. AnswersInput (O.file files.old) (sample_named (words_told told))
        (file_named (words_told told)) result.status (record_events result.events) script.old script.new
        files.old files.new (S.left script.old) (S.left script.new) (O.faults files.old) (O.faults files.new)
        (S.faults script.old) (S.faults script.new)) }
    ensures output { IfOk arguments (λ told. IsOutput result.status
        (written_text (sample_named (words_told told)) (record_events result.events))
        (K.taken out.old) (K.taken out.new) (K.finished out.new)) }
    ensures status { IfOk arguments (λ told. IsStatus result.status (record_events result.events)
        (file_named (words_told told))
        (faults_of (S.faults script.old) (O.faults files.old) (K.faults out.old))
        (faults_of (S.faults script.new) (O.faults files.new) (K.faults out.new))) }
    ensures words { IfOk arguments (λ told. AreJudged (words_told told) result.status) }
    ensures untouched { result.status ≡ BAD_WORDS
        → (script.new ≡ script.old) × (files.new ≡ files.old) × (out.new ≡ out.old) }
    ensures bound { result.status ≤ 6 }

    // Where no words were told, nothing is read and nothing written.
    ensures untold { IfErr arguments (λ error. (record_events result.events ≡ [])
        × ((result.status ≡ BAD_WORDS) ⊎ (result.status ≡ NO_MEMORY))
        × ((result.status ≡ NO_MEMORY) ↔ (error_kind error ≡ ErrorKind.OutOfMemory))) }
    ensures undone { IfErr arguments (λ _.
        (script.new ≡ script.old) × (files.new ≡ files.old) × (out.new ≡ out.old)) }
{
    records_enumerate();
    match arguments {
        Ok(told) => run_told(rt, alloc, told, script, files, out, gate),
        Err(error) => ended_without(alloc, untold(&error)),
    }
}

/// The program: [`run_arguments`] on the arguments, the files, the standard input and the standard output of a runtime. The
/// answer is the status of the run.
pub fn program<R: Env + Files + Input + Print + Threads + Wait + Sync + Alloc<A = Global>>(
    rt: &R,
) -> ExitCode
    ensures { exit_status result ≤ 6 }
{
    let mut script = StdinSource::new(rt.reader());
    let mut out = StdoutSink::new(io::writer(rt));
    let mut files = FileOpener::new(rt);
    let ended = run_arguments(
        rt,
        rt.alloc(),
        env::args(rt),
        &mut script,
        &mut files,
        &mut out,
        &NoGate,
    );
    ExitCode::from(ended.status)
}
