//! Commands answered, and their replies written.

ghost use Rattle.std.specs.Prelude.{◌≡◌, ◌≢◌, ◌∷◌, ◌++◌, [], ℕ, List, ◌≤◌, false, IsTrue, MatchResult, OnOk, OnErr, Option};
ghost use Rattle.std.specs.List.{list_all, list_any};
ghost use Rattle.script_lang.specs.Script.{meets_condition};
ghost use Rattle.job_register.specs.Legal.{commands_in};
ghost use Rattle.job_register.specs.Text.{text_of, last_text};
ghost use Rattle.oriedita_io.specs.Faults.{Rose};
ghost use Rattle.oriedita_cli.specs.Samples.{EndsLast, ends_asks};
ghost use Rattle.oriedita_cli.specs.Serving.{AnswersNext, Serves, StopsIn};
ghost use Rattle.oriedita_cli.specs.Tickets.{AreMisses, IsHelped};

use crate::folding::Folding;
use crate::helping::{prepare, put_tasks};
use crate::tickets::Tickets;
use job_register::Session;
use oriedita_io::{Failed, Sink, write_all};
use script_lang::Command;
use std::alloc::{AllocError, Global};
use std::thread::Threads;
use task_board::Helpers;

/// Why no more commands are answered.
#[derive(Clone, Copy, Debug, PartialEq, Eq)]
pub enum Stop {
    /// A write failed.
    Write,
    /// Memory was refused.
    Memory,
}

impl From<AllocError> for Stop {
    ghost use Rattle.std.specs.Prelude.{◌≡◌};
    ghost use Rattle.oriedita_cli.specs.declared.serving.Stop.TheVariants.{Memory};

    ghost from_gives = { λ _ stop. stop ≡ Memory };

    fn from(_e: AllocError) -> Stop {
        Stop::Memory
    }
}

impl From<Failed> for Stop {
    ghost use Rattle.std.specs.Prelude.{◌≡◌};
    ghost use Rattle.oriedita_cli.specs.declared.serving.Stop.TheVariants.{Write};

    ghost from_gives = { λ _ stop. stop ≡ Write };

    fn from(_e: Failed) -> Stop {
        Stop::Write
    }
}

/// The job whose next order a command asks for.
fn asked_job(command: &Command) -> Option<u32> {
    match command {
        Command::Another { job } => Some(*job),
        _ => None,
    }
}

/// Answers one command. Helpers are asked first for the outcomes that a peek or a wait needs; the tasks of an ask are put
/// right after it.
pub(crate) fn answer_command<R: Threads + Sync, H: Helpers<Folding>>(
    rt: &R,
    alloc: Global,
    most: u32,
    session: &mut Session,
    helpers: &mut H,
    tickets: &mut Tickets,
    command: Command,
) -> Result<(), AllocError>
    requires condition { IsTrue (meets_condition command) }
    requires helped { IsHelped (H.held helpers.old) (H.given helpers.old) session.old tickets.old }
    ensures helped { IsHelped (H.held helpers.new) (H.given helpers.new) session.new tickets.new }
    ensures commands { OnOk result
        (commands_in session.new.events ≡ commands_in session.old.events ++ command ∷ []) }
    ensures text { OnOk result
        (text_of session.new.events ≡ text_of session.old.events ++ last_text session.new.events) }
    ensures stops { OnErr result ((taken : Option (List ℕ))
        → StopsIn session.old.events session.new.events taken taken (command ∷ [])) }
    ensures answered { OnOk result (AnswersNext session.old session.new command) }
    ensures last { list_any ends_asks session.old.events ≡ false → EndsLast session.new.events }
    ensures most { session.new.state.jobs.most ≡ session.old.state.jobs.most }
    ensures misses { H.misses helpers.old ≤ H.misses helpers.new }
    ensures running { AreMisses (H.misses helpers.old) (H.misses helpers.new) session.old.events
        session.new.events }
{
    prepare(alloc, session, helpers, tickets, &command)?;
    let asked = asked_job(&command);
    session.step(rt, alloc, command)?;
    match asked {
        Some(job) => put_tasks(session, helpers, tickets, job, most),
        None => Ok(()),
    }
}

/// Answers one command and writes the text of the reply, which `text` holds meanwhile.
pub fn serve_command<R: Threads + Sync, H: Helpers<Folding>, K: Sink>(
    rt: &R,
    alloc: Global,
    most: u32,
    session: &mut Session,
    helpers: &mut H,
    tickets: &mut Tickets,
    text: &mut Vec<u8>,
    command: Command,
    out: &mut K,
) -> Result<(), Stop>
    requires condition { IsTrue (meets_condition command) }
    requires helped { IsHelped (H.held helpers.old) (H.given helpers.old) session.old tickets.old }
    ensures serves { MatchResult result
        (λ _. Serves session.old.events session.new.events (K.taken out.old) (K.taken out.new) (command ∷ []))
        (λ _. StopsIn session.old.events session.new.events (K.taken out.old) (K.taken out.new)
        (command ∷ [])) }
    ensures helped { IsHelped (H.held helpers.new) (H.given helpers.new) session.new tickets.new }
    ensures misses { H.misses helpers.old ≤ H.misses helpers.new }
    ensures running { AreMisses (H.misses helpers.old) (H.misses helpers.new) session.old.events
        session.new.events }
    ensures most { session.new.state.jobs.most ≡ session.old.state.jobs.most }
    ensures cause { result ≡ Err Stop.Write → Rose (K.faults out.old) (K.faults out.new) }
    ensures faults_stay { result ≢ Err Stop.Write → K.faults out.new ≡ K.faults out.old }
    ensures faults_rise { K.faults out.old ≤ K.faults out.new }
{
    answer_command(rt, alloc, most, session, helpers, tickets, command)?;
    text.clear();
    session.write_last(text)?;
    write_all(out, text.as_slice())?;
    Ok(())
}

/// Answers the commands one after another, and writes the text of each reply.
pub fn serve_all<R: Threads + Sync, H: Helpers<Folding>, K: Sink>(
    rt: &R,
    alloc: Global,
    most: u32,
    session: &mut Session,
    helpers: &mut H,
    tickets: &mut Tickets,
    commands: Vec<Command>,
    out: &mut K,
) -> Result<(), Stop>
    requires condition { IsTrue (list_all meets_condition commands.items) }
    requires helped { IsHelped (H.held helpers.old) (H.given helpers.old) session.old tickets.old }
    ensures serves { MatchResult result
        (λ _. Serves session.old.events session.new.events (K.taken out.old) (K.taken out.new) commands.items)
        (λ _. StopsIn session.old.events session.new.events (K.taken out.old) (K.taken out.new)
        commands.items) }
    ensures helped { IsHelped (H.held helpers.new) (H.given helpers.new) session.new tickets.new }
    ensures misses { H.misses helpers.old ≤ H.misses helpers.new }
    ensures running { AreMisses (H.misses helpers.old) (H.misses helpers.new) session.old.events
        session.new.events }
    ensures most { session.new.state.jobs.most ≡ session.old.state.jobs.most }
    ensures cause { result ≡ Err Stop.Write → Rose (K.faults out.old) (K.faults out.new) }
    ensures faults_stay { result ≢ Err Stop.Write → K.faults out.new ≡ K.faults out.old }
    ensures faults_rise { K.faults out.old ≤ K.faults out.new }
{
    let mut text = Vec::new(alloc);
    for command in commands {
        serve_command(
            rt, alloc, most, session, helpers, tickets, &mut text, command, out,
        )?;
    }
    Ok(())
}
