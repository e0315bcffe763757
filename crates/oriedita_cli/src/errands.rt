//! What a session is to do: to answer a script, or to fold a sample.

ghost use Rattle.std.specs.Prelude.{◌≡◌, ◌≢◌, ℕ, ◌+◌, ◌-◌, ◌^◌, ◌<◌, ◌≤◌, ◌⊎◌, [], None, MatchResult, take};
ghost use Rattle.std.specs.Io.KnownBytes.{Appends};
ghost use Rattle.oriedita_io.specs.Faults.{Rose};
ghost use Rattle.job_register.specs.View.{record_events};
ghost use Rattle.job_register.specs.Counts.{running_replies, accepted_outcomes};
ghost use Rattle.job_register.specs.FoldingRecords.{EnumeratesOrders};
ghost use Rattle.job_register.specs.Legal.{IsLegal};
ghost use Rattle.oriedita_cli.specs.Clauses.{IsOutput, ended_status, written_text};
ghost use Rattle.oriedita_cli.specs.Errands.{IsDone, IsErrand, sample_of};
ghost use Rattle.oriedita_cli.specs.Tickets.{AreMisses, IsHelped, released};

use crate::folding::Folding;
use crate::running::{Ended, NO_MEMORY, WRITE_FAILED, ended_without};
use crate::samples::{fold_sample, write_line};
use crate::serving::{Stop, serve_all};
use crate::sessions::{finish, stopped};
use crate::tickets::Tickets;
use job_register::Session;
use job_register::laws::records_enumerate;
use oriedita_io::Sink;
use script_lang::Commands;
use std::alloc::Global;
use std::thread::Threads;
use task_board::Helpers;

/// What a session is to do.
#[derive(Drop)]
pub(crate) enum Errand {
    /// To answer these commands.
    Script(Commands),
    /// To fold this sample, 1 to 7.
    Sample(u32),
}

// Does it in a session in which nothing has happened, and writes what it is to write. Where that stops, the front of it is
// done, as at want of memory.
fn serve_errand<R: Threads + Sync, H: Helpers<Folding>, K: Sink>(
    rt: &R,
    alloc: Global,
    most: u32,
    errand: Errand,
    session: &mut Session,
    helpers: &mut H,
    tickets: &mut Tickets,
    out: &mut K,
) -> Result<(), Stop>
    requires errand { IsErrand errand }
    requires helped { IsHelped (H.held helpers.old) (H.given helpers.old) session.old tickets.old }
    requires fresh { session.old.events ≡ [] }
    ensures done { MatchResult result
        (λ _. IsDone errand 0 session.new.events) (λ _. IsDone errand 6 session.new.events) }
    ensures written { MatchResult result
        (λ _. Appends (K.taken out.old) (K.taken out.new)
        (written_text (sample_of errand) session.new.events))
        (λ _. (count : ℕ) × Appends (K.taken out.old) (K.taken out.new)
        (take count (written_text (sample_of errand) session.new.events))) }
    ensures helped { IsHelped (H.held helpers.new) (H.given helpers.new) session.new tickets.new }
    ensures most { session.new.state.jobs.most ≡ session.old.state.jobs.most }
    ensures misses { H.misses helpers.old ≤ H.misses helpers.new }
    ensures running { AreMisses (H.misses helpers.old) (H.misses helpers.new) session.old.events
        session.new.events }
    ensures cause { result ≡ Err Stop.Write → Rose (K.faults out.old) (K.faults out.new) }
    ensures faults_stay { result ≢ Err Stop.Write → K.faults out.new ≡ K.faults out.old }
    ensures faults_rise { K.faults out.old ≤ K.faults out.new }
{
    match errand {
        Errand::Script(commands) => serve_all(
            rt,
            alloc,
            most,
            session,
            helpers,
            tickets,
            commands.into_vec(),
            out,
        ),
        Errand::Sample(n) => {
            fold_sample(rt, alloc, most, n, session, helpers, tickets)?;
            write_line(alloc, n, session, out)
        }
    }
}

/// Does it in a new session over helpers that have given no ticket. The tasks of an ask are put to the helpers before its
/// reply is written. A peek takes what outcomes are there; a wait obtains what it needs, and searches what comes back.
pub(crate) fn do_errand<R: Threads + Sync, H: Helpers<Folding>, K: Sink>(
    rt: &R,
    alloc: Global,
    most: u32,
    errand: Errand,
    helpers: &mut H,
    out: &mut K,
) -> Ended
    requires most { most ≡ 1 }
    requires errand { IsErrand errand }
    requires given { H.given helpers.old ≡ 0 }
    requires none { (number : ℕ) → H.held helpers.old number ≡ None }
    ensures legal { IsLegal most (record_events result.events) }
    ensures enumeration { EnumeratesOrders most (record_events result.events) }
    ensures done { IsDone errand result.status (record_events result.events) }
    ensures output { IsOutput result.status (written_text (sample_of errand) (record_events result.events))
        (K.taken out.old) (K.taken out.new) (K.finished out.new) }
    ensures status { (result.status ≡ ended_status (record_events result.events))
        ⊎ ((result.status ≡ WRITE_FAILED) ⊎ (result.status ≡ NO_MEMORY)) }
    ensures cause { result.status ≡ WRITE_FAILED → Rose (K.faults out.old) (K.faults out.new) }
    ensures faults_stay { result.status ≢ WRITE_FAILED → K.faults out.new ≡ K.faults out.old }
    ensures faults_rise { K.faults out.old ≤ K.faults out.new }
    // Each reply that no answer is there yet was told so by the helpers, and no outcome came but by its ticket.
    ensures running { H.misses helpers.new < 2 ^ 64 - 1
        → running_replies (record_events result.events) + H.misses helpers.old ≤ H.misses helpers.new }
    ensures tickets { accepted_outcomes (record_events result.events)
        ≤ released (H.held helpers.new) (H.given helpers.new) }
{
    records_enumerate();
    let Ok(mut session) = Session::open(alloc, most) else {
        return ended_without(alloc, NO_MEMORY);
    };
    let mut tickets = Tickets::new(alloc);
    match serve_errand(
        rt,
        alloc,
        most,
        errand,
        &mut session,
        helpers,
        &mut tickets,
        out,
    ) {
        Ok(()) => finish(session, out),
        Err(stop) => stopped(session, stop),
    }
}
