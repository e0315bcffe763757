//! How a run begins: what is read, and what is to be done then.

ghost use Rattle.std.specs.Prelude.{◌≡◌, ◌≢◌, ℕ, ◌<◌, ◌≤◌, ◌↔◌, ◌⊎◌, List, None, [], option_map, string_bytes, IfSome, IsSome};
ghost use Rattle.oriedita_io.specs.Faults.{Rose};
ghost use Rattle.job_register.specs.declared.session.Event.{Event};
ghost use Rattle.job_register.specs.View.{record_events};
ghost use Rattle.job_register.specs.Legal.{IsLegal};
ghost use Rattle.job_register.specs.Text.{text_of};
ghost use Rattle.oriedita_cli.specs.Clauses.{AnswersInput, IsOutput};
ghost use Rattle.oriedita_cli.specs.Errands.{IsSample};
ghost use Rattle.oriedita_cli.specs.Starting.{IsStart, IsStartOutput, IsStartWrite, IsToDo, MayEnd, cut_status};

use crate::errands::Errand;
use crate::opening::Unread;
use crate::reading::{Reading, read_commands};
use crate::running::{Ended, NO_MEMORY, READ_FAILED, TOO_LONG, WRITE_FAILED, ended_without};
use oriedita_io::{Failed, Opener, Sink, Source};
use program_words::Options;
use std::alloc::Global;

/// What is left to be done.
#[derive(Drop)]
pub(crate) enum Start {
    Whole(Errand),
    /// The same, for a script that a read fault cut.
    Cut(Errand),
    /// Nothing: the run is over.
    Over(Ended),
}

// The end of a run whose file could not be read. Its output is nothing, and it is finished.
fn ended_unopened<K: Sink>(alloc: Global, out: &mut K) -> Ended
    ensures status { (result.status ≡ READ_FAILED) ⊎ (result.status ≡ WRITE_FAILED) }
    ensures events { record_events result.events ≡ [] }
    ensures legal { IsLegal 1 (record_events result.events) }
    ensures output { IsOutput result.status (text_of (record_events result.events)) (K.taken out.old)
        (K.taken out.new) (K.finished out.new) }
    ensures cause { result.status ≡ WRITE_FAILED → Rose (K.faults out.old) (K.faults out.new) }
    ensures faults_stay { result.status ≢ WRITE_FAILED → K.faults out.new ≡ K.faults out.old }
    ensures faults_rise { K.faults out.old ≤ K.faults out.new }
{
    match out.finish() {
        Ok(()) => ended_without(alloc, READ_FAILED),
        Err(Failed) => ended_without(alloc, WRITE_FAILED),
    }
}

// The end of a run that read no script, for the file.
fn ended_unread<K: Sink>(alloc: Global, fault: Unread, out: &mut K) -> Ended
    ensures events { record_events result.events ≡ [] }
    ensures legal { IsLegal 1 (record_events result.events) }
    ensures late { 3 ≤ result.status }
    ensures status { result.status ≤ 6 }
    ensures failed { result.status ≡ READ_FAILED → fault ≡ Unread.Failed }
    ensures long { (result.status ≡ TOO_LONG) ↔ (fault ≡ Unread.TooLong) }
    ensures memory { (result.status ≡ NO_MEMORY) ↔ (fault ≡ Unread.Memory) }
    ensures output { IsOutput result.status (text_of (record_events result.events)) (K.taken out.old)
        (K.taken out.new) (K.finished out.new) }
    ensures cause { result.status ≡ WRITE_FAILED → Rose (K.faults out.old) (K.faults out.new) }
    ensures faults_stay { result.status ≢ WRITE_FAILED → K.faults out.new ≡ K.faults out.old }
    ensures faults_rise { K.faults out.old ≤ K.faults out.new }
{
    match fault {
        Unread::Failed => ended_unopened(alloc, out),
        Unread::TooLong => ended_without(alloc, TOO_LONG),
        Unread::Memory => ended_without(alloc, NO_MEMORY),
    }
}

/// Reads what the options name: the file, where one is, and then the whole script, or nothing for a sample. However what is
/// to be done then ends, the input is answered.
pub(crate) fn begin<S: Source, O: Opener, K: Sink>(
    alloc: Global,
    options: &Options,
    script: &mut S,
    files: &mut O,
    out: &mut K,
) -> Start
    requires { IfSome options.now.sample IsSample }
    ensures start { IsStart options.now.sample result }
    ensures input { (status : ℕ) (events : List Event) → MayEnd result status events
        → AnswersInput (O.file files.old) options.now.sample (option_map string_bytes options.now.cp) status
        events script.old script.new files.old files.new (S.left script.old) (S.left script.new)
        (O.faults files.old) (O.faults files.new) (S.faults script.old) (S.faults script.new) }
    ensures read { (status : ℕ) (events : List Event) → MayEnd result status events → status < 2
        → (S.faults script.new ≡ S.faults script.old) × (O.faults files.new ≡ O.faults files.old) }
    ensures unread { (status : ℕ) (events : List Event) → MayEnd result status events → status ≡ READ_FAILED
        → Rose (S.faults script.old) (S.faults script.new)
        ⊎ (IsSome (option_map string_bytes options.now.cp) × Rose (O.faults files.old) (O.faults files.new)) }
    ensures rise { (S.faults script.old ≤ S.faults script.new) × (O.faults files.old ≤ O.faults files.new) }
    ensures output { IsStartOutput options.now.sample result (K.taken out.old) (K.taken out.new)
        (K.finished out.new) }
    ensures write { IsStartWrite result (K.faults out.old) (K.faults out.new) }
    ensures untouched { IsToDo result → out.new ≡ out.old }
{
    match read_commands(alloc, options, script, files) {
        Reading::Whole(commands) => Start::Whole(Errand::Script(commands)),
        Reading::Cut(commands) => Start::Cut(Errand::Script(commands)),
        Reading::Sample(n) => Start::Whole(Errand::Sample(n)),
        Reading::Nothing(status) => Start::Over(ended_without(alloc, status)),
        Reading::NoFile(fault) => Start::Over(ended_unread(alloc, fault, out)),
    }
}
