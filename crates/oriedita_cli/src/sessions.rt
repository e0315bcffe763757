//! A session over helpers.

ghost use Rattle.std.specs.Prelude.{◌≡◌, ◌≢◌, ℕ, ◌+◌, ◌-◌, ◌^◌, ◌<◌, ◌≤◌, ◌⊎◌, ◌↔◌, None, true};
ghost use Rattle.std.specs.Io.KnownBytes.{Keeps};
ghost use Rattle.oriedita_io.specs.Faults.{Rose};
ghost use Rattle.oriedita_io.specs.Told.{Tells};
ghost use Rattle.job_register.specs.View.{record_events};
ghost use Rattle.job_register.specs.Counts.{running_replies, accepted_outcomes};
ghost use Rattle.job_register.specs.FoldingRecords.{EnumeratesOrders};
ghost use Rattle.job_register.specs.Legal.{IsLegal};
ghost use Rattle.job_register.specs.Text.{text_of};
ghost use Rattle.oriedita_cli.specs.Clauses.{AreAnswered, IsOutput, ended_status};
ghost use Rattle.oriedita_cli.specs.Samples.{IsSampled, sample_text};
ghost use Rattle.oriedita_cli.specs.Tickets.{released};

use crate::errands::{Errand, do_errand};
use crate::folding::Folding;
use crate::running::{ACCEPTED, Ended, NO_MEMORY, REFUSED, WRITE_FAILED};
use crate::serving::Stop;
use job_register::Session;
use oriedita_io::{Failed, Sink};
use script_lang::Commands;
use std::alloc::Global;
use std::thread::Threads;
use task_board::Helpers;

// The end of a run whose commands were all answered, and their replies written.
pub(crate) fn finish<K: Sink>(session: Session, out: &mut K) -> Ended
    ensures events { record_events result.events ≡ session.events }
    ensures legal { IsLegal session.state.jobs.most session.events }
    ensures bytes { Keeps (K.taken out.old) (K.taken out.new) }
    ensures status { (result.status ≡ ended_status session.events) ⊎ (result.status ≡ WRITE_FAILED) }
    ensures finished { result.status < 2 → Tells (K.finished out.new) true }
    ensures cause { result.status ≡ WRITE_FAILED → Rose (K.faults out.old) (K.faults out.new) }
    ensures faults_stay { result.status ≢ WRITE_FAILED → K.faults out.new ≡ K.faults out.old }
    ensures faults_rise { K.faults out.old ≤ K.faults out.new }
{
    let status = if session.has_refusal() {
        REFUSED
    } else {
        ACCEPTED
    };
    match out.finish() {
        Ok(()) => Ended {
            status,
            events: session.finish(),
        },
        Err(Failed) => Ended {
            status: WRITE_FAILED,
            events: session.finish(),
        },
    }
}

// The end of a run whose answers stopped.
pub(crate) fn stopped(session: Session, stop: Stop) -> Ended
    ensures events { record_events result.events ≡ session.events }
    ensures legal { IsLegal session.state.jobs.most session.events }
    ensures status { (result.status ≡ WRITE_FAILED) ⊎ (result.status ≡ NO_MEMORY) }
    ensures write { (result.status ≡ WRITE_FAILED) ↔ (stop ≡ Stop.Write) }
    ensures memory { (result.status ≡ NO_MEMORY) ↔ (stop ≡ Stop.Memory) }
{
    let status = match stop {
        Stop::Write => WRITE_FAILED,
        Stop::Memory => NO_MEMORY,
    };
    Ended {
        status,
        events: session.finish(),
    }
}

/// Answers the commands in a new session and writes the replies. The tasks of an ask are put to the helpers before its
/// reply is written. A peek takes what outcomes are there; a wait obtains what it needs, and searches what comes back.
pub fn session<R: Threads + Sync, H: Helpers<Folding>, K: Sink>(
    rt: &R,
    alloc: Global,
    most: u32,
    commands: Commands,
    helpers: &mut H,
    out: &mut K,
) -> Ended
    requires most { most ≡ 1 }
    requires given { H.given helpers.old ≡ 0 }
    requires none { (number : ℕ) → H.held helpers.old number ≡ None }
    ensures legal { IsLegal most (record_events result.events) }
    ensures enumeration { EnumeratesOrders most (record_events result.events) }
    ensures input { AreAnswered result.status (record_events result.events) commands }
    ensures output { IsOutput result.status (text_of (record_events result.events)) (K.taken out.old)
        (K.taken out.new) (K.finished out.new) }
    ensures status { (result.status ≡ ended_status (record_events result.events))
        ⊎ ((result.status ≡ WRITE_FAILED) ⊎ (result.status ≡ NO_MEMORY)) }
    ensures cause { result.status ≡ WRITE_FAILED → Rose (K.faults out.old) (K.faults out.new) }
    ensures faults_stay { result.status ≢ WRITE_FAILED → K.faults out.new ≡ K.faults out.old }
    ensures faults_rise { K.faults out.old ≤ K.faults out.new }
    // Each reply that no answer is there yet was told so by the helpers, and no outcome came but by its ticket.
    ensures running { H.misses helpers.new < 2 ^ 64 - 1
        → running_replies (record_events result.events) + H.misses helpers.old ≤ H.misses helpers.new }
    ensures tickets { accepted_outcomes (record_events result.events)
        ≤ released (H.held helpers.new) (H.given helpers.new) }
{
    do_errand(rt, alloc, most, Errand::Script(commands), helpers, out)
}

/// Folds a sample pattern in a new session, and asks for one layer order after another, to the last. One line is written,
/// `sample N faces F pairs P orders K`, or `sample N stopped` where an ask was refused.
pub fn sample_run<R: Threads + Sync, H: Helpers<Folding>, K: Sink>(
    rt: &R,
    alloc: Global,
    most: u32,
    n: u32,
    helpers: &mut H,
    out: &mut K,
) -> Ended
    requires most { most ≡ 1 }
    requires some { 1 ≤ n }
    requires few { n ≤ 7 }
    requires given { H.given helpers.old ≡ 0 }
    requires none { (number : ℕ) → H.held helpers.old number ≡ None }
    ensures legal { IsLegal most (record_events result.events) }
    ensures enumeration { EnumeratesOrders most (record_events result.events) }
    ensures input { IsSampled result.status n (record_events result.events) }
    ensures output { IsOutput result.status (sample_text n (record_events result.events)) (K.taken out.old)
        (K.taken out.new) (K.finished out.new) }
    ensures status { (result.status ≡ ended_status (record_events result.events))
        ⊎ ((result.status ≡ WRITE_FAILED) ⊎ (result.status ≡ NO_MEMORY)) }
    ensures cause { result.status ≡ WRITE_FAILED → Rose (K.faults out.old) (K.faults out.new) }
    ensures faults_stay { result.status ≢ WRITE_FAILED → K.faults out.new ≡ K.faults out.old }
    ensures faults_rise { K.faults out.old ≤ K.faults out.new }
    ensures running { H.misses helpers.new < 2 ^ 64 - 1
        → running_replies (record_events result.events) + H.misses helpers.old ≤ H.misses helpers.new }
    ensures tickets { accepted_outcomes (record_events result.events)
        ≤ released (H.held helpers.new) (H.given helpers.new) }
{
    do_errand(rt, alloc, most, Errand::Sample(n), helpers, out)
}
