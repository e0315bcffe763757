//! The top call.

ghost use Rattle.std.specs.Prelude.{◌≡◌, ◌≢◌, ◌≤◌, ◌↔◌, ◌⊎◌, None, [], map, option_map, string_bytes, IfSome};
ghost use Rattle.oriedita_io.specs.Faults.{Rose};
ghost use Rattle.job_register.specs.View.{record_events};
ghost use Rattle.job_register.specs.FoldingRecords.{EnumeratesOrders};
ghost use Rattle.job_register.specs.Legal.{IsLegal};
ghost use Rattle.program_words.specs.ProgramWords.{said_of};
ghost use Rattle.oriedita_cli.specs.Clauses.{AnswersInput, IsOutput, IsStatus, ended_status, faults_of, written_text};
ghost use Rattle.oriedita_cli.specs.Errands.{IsDone, IsErrand, IsSample, sample_of};
ghost use Rattle.oriedita_cli.specs.Starting.{cut_status};
ghost use Rattle.oriedita_cli.specs.Words.{file_named, sample_named};

use crate::errands::{Errand, do_errand};
use crate::starting::{Start, begin};
use crate::workers::run_beside_workers;
use job_register::Record;
use job_register::laws::records_enumerate;
use oriedita_io::{Opener, Sink, Source};
use program_words::{Options, WordsFault, read_words};
use std::alloc::Global;
use std::sync::Wait;
use std::thread::Threads;
use task_board::{Alone, Gate};

/// The exit status of a run, and its record.
#[derive(Drop)]
pub struct Ended {
    pub status: u8,
    pub events: Record,
}

/// Every line was accepted.
pub const ACCEPTED: u8 = 0;
/// Some reply is a refusal.
pub const REFUSED: u8 = 1;
/// The words of the command line are refused.
pub const BAD_WORDS: u8 = 2;
/// A read failed.
pub const READ_FAILED: u8 = 3;
/// A write failed, or the finishing of the output.
pub const WRITE_FAILED: u8 = 4;
/// The file or the script is too long.
pub const TOO_LONG: u8 = 5;
/// Memory was refused.
pub const NO_MEMORY: u8 = 6;

// The end of a run that answered no command.
pub(crate) fn ended_without(alloc: Global, status: u8) -> Ended
    ensures status { result.status ≡ status }
    ensures events { record_events result.events ≡ [] }
    ensures legal { IsLegal 1 (record_events result.events) }
{
    Ended {
        status,
        events: Record::new(alloc),
    }
}

// The end of a run whose script a read fault cut.
fn cut_short(ended: Ended) -> Ended
    ensures events { record_events result.events ≡ record_events ended.events }
    ensures status { result.status ≡ cut_status ended.status }
{
    let status = if ended.status < 2 {
        READ_FAILED
    } else {
        ended.status
    };
    Ended {
        status,
        events: ended.events,
    }
}

// Does the errand in a new session, and searches all it waits for.
fn do_alone<R: Threads + Sync, K: Sink>(rt: &R, alloc: Global, errand: Errand, out: &mut K) -> Ended
    requires { IsErrand errand }
    ensures legal { IsLegal 1 (record_events result.events) }
    ensures done { IsDone errand result.status (record_events result.events) }
    ensures output { IsOutput result.status (written_text (sample_of errand) (record_events result.events))
        (K.taken out.old) (K.taken out.new) (K.finished out.new) }
    ensures status { (result.status ≡ ended_status (record_events result.events))
        ⊎ ((result.status ≡ WRITE_FAILED) ⊎ (result.status ≡ NO_MEMORY)) }
    ensures cause { result.status ≡ WRITE_FAILED → Rose (K.faults out.old) (K.faults out.new) }
    ensures faults_stay { result.status ≢ WRITE_FAILED → K.faults out.new ≡ K.faults out.old }
    ensures faults_rise { K.faults out.old ≤ K.faults out.new }
{
    let mut helpers = Alone::new(alloc);
    do_errand(rt, alloc, 1, errand, &mut helpers, out)
}

/// [`run`] with these options, but without workers: what is waited for is searched there, and the call waits for nobody.
pub fn run_alone<R: Threads + Sync, S: Source, O: Opener, K: Sink>(
    rt: &R,
    alloc: Global,
    options: &Options,
    script: &mut S,
    files: &mut O,
    out: &mut K,
) -> Ended
    requires { IfSome options.now.sample IsSample }
    ensures legal { IsLegal 1 (record_events result.events) }
    ensures enumeration { EnumeratesOrders 1 (record_events result.events) }
    ensures input { AnswersInput (O.file files.old) options.now.sample
        (option_map string_bytes options.now.cp) result.status (record_events result.events)
        script.old script.new files.old files.new
        (S.left script.old) (S.left script.new) (O.faults files.old) (O.faults files.new)
        (S.faults script.old) (S.faults script.new) }
    ensures output { IsOutput result.status (written_text options.now.sample (record_events result.events))
        (K.taken out.old) (K.taken out.new) (K.finished out.new) }
    ensures status { IsStatus result.status (record_events result.events)
        (option_map string_bytes options.now.cp)
        (faults_of (S.faults script.old) (O.faults files.old) (K.faults out.old))
        (faults_of (S.faults script.new) (O.faults files.new) (K.faults out.new)) }
    ensures words { result.status ≢ BAD_WORDS }
{
    records_enumerate();
    match begin(alloc, options, script, files, out) {
        Start::Whole(errand) => do_alone(rt, alloc, errand, out),
        Start::Cut(errand) => cut_short(do_alone(rt, alloc, errand, out)),
        Start::Over(ended) => ended,
    }
}

// `run_alone`, with worker threads beside the session.
fn run_beside<R: Threads + Wait + Sync, S: Source, O: Opener, K: Sink, G: Gate + Sync>(
    rt: &R,
    alloc: Global,
    options: &Options,
    script: &mut S,
    files: &mut O,
    out: &mut K,
    gate: &G,
) -> Ended
    requires workers { options.now.workers ≤ 8 }
    requires sample { IfSome options.now.sample IsSample }
    ensures legal { IsLegal 1 (record_events result.events) }
    ensures enumeration { EnumeratesOrders 1 (record_events result.events) }
    ensures input { AnswersInput (O.file files.old) options.now.sample
        (option_map string_bytes options.now.cp) result.status (record_events result.events)
        script.old script.new files.old files.new
        (S.left script.old) (S.left script.new) (O.faults files.old) (O.faults files.new)
        (S.faults script.old) (S.faults script.new) }
    ensures output { IsOutput result.status (written_text options.now.sample (record_events result.events))
        (K.taken out.old) (K.taken out.new) (K.finished out.new) }
    ensures status { IsStatus result.status (record_events result.events)
        (option_map string_bytes options.now.cp)
        (faults_of (S.faults script.old) (O.faults files.old) (K.faults out.old))
        (faults_of (S.faults script.new) (O.faults files.new) (K.faults out.new)) }
    ensures words { result.status ≢ BAD_WORDS }
{
    let workers = options.workers;
    records_enumerate();
    match begin(alloc, options, script, files, out) {
        Start::Whole(errand) => run_beside_workers(rt, alloc, workers, errand, gate, out),
        Start::Cut(errand) => cut_short(run_beside_workers(rt, alloc, workers, errand, gate, out)),
        Start::Over(ended) => ended,
    }
}

/// Judges the words, reads the file that they name and then the whole script, answers the commands one after another and
/// writes the text of each reply; then finishes the output. Where the words name a sample nothing is read: it is folded to
/// its last layer order, and one line is written. The status says how it ended, and the record what was answered. As many
/// worker threads as the words say search the tasks of folding jobs meanwhile; each passes the gate before a search.
pub fn run<R: Threads + Wait + Sync, S: Source, O: Opener, K: Sink, G: Gate + Sync>(
    rt: &R,
    alloc: Global,
    words: &[String],
    script: &mut S,
    files: &mut O,
    out: &mut K,
    gate: &G,
) -> Ended
    // The record clause.
    ensures legal { IsLegal 1 (record_events result.events) }

    // The enumeration clause: each folding job shows the layer orders of the version that it names.
    ensures enumeration { EnumeratesOrders 1 (record_events result.events) }

    // The input clause.
    ensures input { AnswersInput (O.file files.old) (sample_named (map string_bytes words.now))
        (file_named (map string_bytes words.now)) result.status (record_events result.events)
        script.old script.new files.old files.new
        (S.left script.old) (S.left script.new) (O.faults files.old) (O.faults files.new)
        (S.faults script.old) (S.faults script.new) }

    // The output clause.
    ensures output { IsOutput result.status
        (written_text (sample_named (map string_bytes words.now)) (record_events result.events))
        (K.taken out.old) (K.taken out.new) (K.finished out.new) }

    // The status clause.
    ensures status { IsStatus result.status (record_events result.events)
        (file_named (map string_bytes words.now))
        (faults_of (S.faults script.old) (O.faults files.old) (K.faults out.old))
        (faults_of (S.faults script.new) (O.faults files.new) (K.faults out.new)) }

    // The words.
    ensures words { (result.status ≡ BAD_WORDS) ↔ (said_of (map string_bytes words.now) ≡ None) }
    ensures untouched { said_of (map string_bytes words.now) ≡ None
        → (script.new ≡ script.old) × (files.new ≡ files.old) × (out.new ≡ out.old) }
{
    records_enumerate();
    match read_words(alloc, words) {
        Ok(options) => {
            if options.workers == 0 {
                return run_alone(rt, alloc, &options, script, files, out);
            }
            run_beside(rt, alloc, &options, script, files, out, gate)
        }
        Err(WordsFault::BadWords) => ended_without(alloc, BAD_WORDS),
        Err(WordsFault::Memory) => ended_without(alloc, NO_MEMORY),
    }
}
