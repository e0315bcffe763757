//! A sample pattern, folded to its last layer order.

ghost use Rattle.std.specs.Prelude.{◌≡◌, ◌≢◌, ◌++◌, ◌+◌, ◌-◌, ◌^◌, ◌<◌, ◌≤◌, [], ℕ, None, Err, true, false, IfOk, IsTrue, OnOk, codes, decimal, string_bytes};
ghost use Rattle.std.specs.Prelude.{Some, take, length, if◌then◌else◌};
ghost use Rattle.std.specs.List.{list_any};
ghost use Rattle.std.specs.Io.KnownBytes.{Appends};
ghost use Rattle.cp_text.specs.Sample.{sample_lines};
ghost use Rattle.script_lang.specs.declared.block.LoadStop.{LoadStop};
ghost use Rattle.oriedita_io.specs.Faults.{Rose};
ghost use Rattle.oriedita_cli.specs.Samples.{numbered_from, ends_by, ends_asks, EndsLast, AsksOn, AreSampled, shape_of, shape_told, first_shape, shows_order, orders_shown, is_no_more, folded_text, sample_text};
ghost use Rattle.oriedita_cli.specs.Serving.{IsAskedOn};
ghost use Rattle.oriedita_cli.specs.Tickets.{AreMisses, IsHelped};

use crate::folding::Folding;
use crate::serving::{Stop, answer_command};
use crate::tickets::Tickets;
use cp_text::{CpLine, sample};
use crease_store::LoadLine;
use job_register::{Event, Session};
use oriedita_io::{Sink, write_all};
use script_lang::{Command, LoadLines, LoadStop, Reply};
use std::alloc::{AllocError, Global};
use std::thread::Threads;
use task_board::Helpers;

fn numbered(alloc: Global, lines: &[CpLine]) -> Result<LoadLines, AllocError>
    requires { length lines.now < 2 ^ 32 - 1 }
    ensures { IfOk result (λ numbered. numbered ≡ numbered_from 1 lines.now) }
{
    let mut list = Vec::new(alloc);
    let mut number = 0;
    for line in lines {
        number += 1;
        list.push(LoadLine {
            number,
            kind: line.kind,
            from: line.from,
            to: line.to,
        })?;
    }
    Ok(LoadLines::of(list))
}

// The command that loads a sample.
fn load_sample(alloc: Global, n: u32) -> Result<Command, AllocError>
    requires some { 1 ≤ n }
    requires few { n ≤ 7 }
    ensures { IfOk result (λ command. command
        ≡ Command.Load (numbered_from 1 (sample_lines n)) LoadStop.Ended) }
{
    let lines = numbered(alloc, sample(alloc, n)?.as_slice())?;
    Ok(Command::Load {
        lines,
        stop: LoadStop::Ended,
    })
}

// Whether no more is asked after this reply.
fn ends_by(command: &Command, reply: &Reply) -> bool
    ensures { result ≡ ends_by command.now reply.now }
{
    match command {
        Command::Another { .. } => matches!(reply, Reply::Refused { .. }),
        Command::Wait { .. } => matches!(reply, Reply::NoMore { .. }),
        _ => false,
    }
}

fn ends_asks(event: &Event) -> bool
    ensures { result ≡ ends_asks event.now }
{
    match event {
        Event::Made { command, reply } => ends_by(command, reply),
        Event::Posted { .. } => false,
    }
}

// Whether no more is asked after what was answered last.
fn is_over(session: &Session) -> bool
    requires { EndsLast session.now.events }
    ensures { result ≡ list_any ends_asks session.now.events }
{
    match session.events().events().last() {
        Some(event) => ends_asks(event),
        None => false,
    }
}

// Asks for the next layer order, and waits for it; false where no more is to be asked.
fn ask_next<R: Threads + Sync, H: Helpers<Folding>>(
    rt: &R,
    alloc: Global,
    most: u32,
    session: &mut Session,
    helpers: &mut H,
    tickets: &mut Tickets,
) -> Result<bool, AllocError>
    requires helped { IsHelped (H.held helpers.old) (H.given helpers.old) session.old tickets.old }
    requires unended { list_any ends_asks session.old.events ≡ false }
    ensures helped { IsHelped (H.held helpers.new) (H.given helpers.new) session.new tickets.new }
    ensures next { IfOk result (λ goes_on. goes_on ≡ true → IsAskedOn session.old session.new) }
    ensures ended { IfOk result
        (λ goes_on. goes_on ≡ false → IsTrue (list_any ends_asks session.new.events)) }
    ensures asks { AsksOn session.old.events session.new.events }
    ensures last { EndsLast session.new.events }
    ensures most { session.new.state.jobs.most ≡ session.old.state.jobs.most }
    ensures misses { H.misses helpers.old ≤ H.misses helpers.new }
    ensures running { AreMisses (H.misses helpers.old) (H.misses helpers.new) session.old.events
        session.new.events }
{
    answer_command(
        rt,
        alloc,
        most,
        session,
        helpers,
        tickets,
        Command::Another { job: 1 },
    )?;
    if is_over(session) {
        return Ok(false);
    }
    answer_command(
        rt,
        alloc,
        most,
        session,
        helpers,
        tickets,
        Command::Wait { job: 1 },
    )?;
    Ok(!is_over(session))
}

// Asks for one layer order after another, to the last. It ends, since a session opens a limited number of asks.
fn ask_all<R: Threads + Sync, H: Helpers<Folding>>(
    rt: &R,
    alloc: Global,
    most: u32,
    session: &mut Session,
    helpers: &mut H,
    tickets: &mut Tickets,
) -> Result<(), AllocError>
    requires helped { IsHelped (H.held helpers.old) (H.given helpers.old) session.old tickets.old }
    requires unended { list_any ends_asks session.old.events ≡ false }
    ensures helped { IsHelped (H.held helpers.new) (H.given helpers.new) session.new tickets.new }
    ensures ended { OnOk result (IsTrue (list_any ends_asks session.new.events)) }
    ensures asks { AsksOn session.old.events session.new.events }
    ensures last { EndsLast session.new.events }
    ensures most { session.new.state.jobs.most ≡ session.old.state.jobs.most }
    ensures misses { H.misses helpers.old ≤ H.misses helpers.new }
    ensures running { AreMisses (H.misses helpers.old) (H.misses helpers.new) session.old.events
        session.new.events }
{
    while ask_next(rt, alloc, most, session, helpers, tickets)? {}
    Ok(())
}

/// Loads a sample, folds it, and asks for one layer order after another, to the last.
pub(crate) fn fold_sample<R: Threads + Sync, H: Helpers<Folding>>(
    rt: &R,
    alloc: Global,
    most: u32,
    n: u32,
    session: &mut Session,
    helpers: &mut H,
    tickets: &mut Tickets,
) -> Result<(), AllocError>
    requires some { 1 ≤ n }
    requires few { n ≤ 7 }
    requires helped { IsHelped (H.held helpers.old) (H.given helpers.old) session.old tickets.old }
    requires fresh { session.old.events ≡ [] }
    ensures helped { IsHelped (H.held helpers.new) (H.given helpers.new) session.new tickets.new }
    ensures ended { OnOk result (IsTrue (list_any ends_asks session.new.events)) }
    ensures commands { AreSampled n session.new.events }
    ensures last { EndsLast session.new.events }
    ensures most { session.new.state.jobs.most ≡ session.old.state.jobs.most }
    ensures misses { H.misses helpers.old ≤ H.misses helpers.new }
    ensures running { AreMisses (H.misses helpers.old) (H.misses helpers.new) session.old.events
        session.new.events }
{
    let load = load_sample(alloc, n)?;
    answer_command(rt, alloc, most, session, helpers, tickets, load)?;
    answer_command(rt, alloc, most, session, helpers, tickets, Command::Fold)?;
    ask_all(rt, alloc, most, session, helpers, tickets)
}

fn shape_of(reply: &Reply) -> Option<(u32, u32)>
    ensures { result ≡ shape_of reply.now }
{
    match reply {
        Reply::Job { faces, pairs, .. } => Some((*faces, *pairs)),
        _ => None,
    }
}

fn shape_told(event: &Event) -> Option<(u32, u32)>
    ensures { result ≡ shape_told event.now }
{
    match event {
        Event::Made { reply, .. } => shape_of(reply),
        Event::Posted { .. } => None,
    }
}

// The faces and pairs of the first folding job.
fn first_shape(events: &[Event]) -> Option<(u32, u32)>
    ensures { result ≡ first_shape events.now }
{
    for event in events {
        if let Some(shape) = shape_told(event) {
            return Some(shape);
        }
    }
    None
}

fn shows_order(event: &Event) -> bool
    ensures { result ≡ shows_order event.now }
{
    match event {
        Event::Made { reply, .. } => matches!(reply, Reply::Shown { .. }),
        Event::Posted { .. } => false,
    }
}

// How many layer orders were shown.
fn orders_shown(events: &[Event]) -> usize
    ensures { result ≡ orders_shown events.now }
{
    let mut orders = 0;
    for event in events {
        if shows_order(event) {
            orders += 1;
        }
    }
    orders
}

fn is_no_more(event: &Event) -> bool
    ensures { result ≡ is_no_more event.now }
{
    match event {
        Event::Made { reply, .. } => matches!(reply, Reply::NoMore { .. }),
        Event::Posted { .. } => false,
    }
}

// Whether all layer orders were shown.
fn are_all_shown(events: &[Event]) -> bool
    ensures { result ≡ list_any is_no_more events.now }
{
    events.iter().any(|event| is_no_more(event))
}

fn counted_line(
    alloc: Global,
    n: u32,
    faces: u32,
    pairs: u32,
    orders: usize,
) -> Result<String, AllocError>
    ensures { IfOk result (λ text. string_bytes text
        ≡ codes "sample " ++ decimal n ++ folded_text (Some (faces, pairs)) orders) }
{
    format!(in alloc; "sample {n} faces {faces} pairs {pairs} orders {orders}\n")
}

fn stopped_line(alloc: Global, n: u32) -> Result<String, AllocError>
    ensures { (orders : ℕ) → IfOk result (λ text. string_bytes text
        ≡ codes "sample " ++ decimal n ++ folded_text None orders) }
{
    format!(in alloc; "sample {n} stopped\n")
}

// The numbers of the first folding job, where all of its layer orders were shown.
fn folded_shape(events: &[Event]) -> Option<(u32, u32)>
    ensures { result ≡ (if list_any is_no_more events.now then first_shape events.now else None) }
{
    if are_all_shown(events) {
        first_shape(events)
    } else {
        None
    }
}

// The line of a sample.
fn sample_text(alloc: Global, n: u32, events: &[Event]) -> Result<String, AllocError>
    ensures { IfOk result (λ text. string_bytes text ≡ sample_text n events.now) }
{
    match folded_shape(events) {
        Some((faces, pairs)) => counted_line(alloc, n, faces, pairs, orders_shown(events)),
        None => stopped_line(alloc, n),
    }
}

/// Writes the line of a sample: `sample N faces F pairs P orders K`, or `sample N stopped` where an ask was refused.
pub(crate) fn write_line<K: Sink>(
    alloc: Global,
    n: u32,
    session: &Session,
    out: &mut K,
) -> Result<(), Stop>
    ensures written { OnOk result
        (Appends (K.taken out.old) (K.taken out.new) (sample_text n session.now.events)) }
    ensures front { (count : ℕ)
        × Appends (K.taken out.old) (K.taken out.new) (take count (sample_text n session.now.events)) }
    ensures cause { result ≡ Err Stop.Write → Rose (K.faults out.old) (K.faults out.new) }
    ensures faults_stay { result ≢ Err Stop.Write → K.faults out.new ≡ K.faults out.old }
    ensures faults_rise { K.faults out.old ≤ K.faults out.new }
{
    let text = sample_text(alloc, n, session.events().events())?;
    write_all(out, text.as_bytes())?;
    Ok(())
}
