//! The session and its record.

ghost use Rattle.std.specs.Prelude.{◌≡◌, ◌≤◌, ◌++◌, ◌∷◌, [], ◌+◌, ◌||◌, if◌then◌else◌, IfOk, IfSome, IsSome, IsTrue, OnOk, OnErr, option_map};
ghost use Rattle.script_lang.specs.Script.{meets_condition};
ghost use Rattle.script_lang.specs.declared.reply.Reply.{Reply};
ghost use Rattle.job_register.specs.Legal.{is_refusal, is_accepted};

use crate::answering::answer_command;
use crate::laws::records_enumerate;
use cp_text::{all_or_nothing, write_pattern};
use crease_model::{Pattern, Sheet};
use fold_jobs::Jobs;
use fold_jobs::laws::right_outcomes_stay;
use script_lang::{Command, Reply, write_head};
use std::alloc::{AllocError, Global};
use std::marker::Model;
use std::thread::Threads;
use undo_journal::Journal;
use vertex_checks::{VertexFault, check, write_faults};
use worker_split::{Outcome, Taken, Task};

/// What happened in a session.
#[derive(Drop)]
pub enum Event {
    /// A command was answered.
    Made { command: Command, reply: Reply },
    /// An outcome of a task was posted.
    Posted { outcome: Outcome, accepted: bool },
}

// Whether some reply up to this one was a refusal.
fn refused_after(before: bool, reply: &Reply) -> bool
    ensures { result ≡ (before || is_refusal reply.now) }
{
    match reply {
        Reply::Refused { .. } => true,
        _ => before,
    }
}

fn was_accepted(taken: &Taken) -> bool
    ensures { result ≡ is_accepted taken.now }
{
    match taken {
        Taken::Accepted => true,
        Taken::Stranger { .. } => false,
    }
}

/// What happened in a session, in order.
#[derive(Drop)]
pub struct Record {
    list: Vec<Event>,
}

impl Record {
    ghost use Rattle.job_register.specs.View.{record_events};

    /// The record in which nothing has happened.
    pub fn new(alloc: Global) -> Record
        ensures { record_events result ≡ [] }
    {
        Record {
            list: Vec::new(alloc),
        }
    }

    pub fn events(&self) -> &[Event]
        ensures { result.now ≡ record_events self.now }
    {
        self.list.as_slice()
    }
}

/// A session: the versions of a pattern, the folding jobs, and the record of all that happened.
#[derive(Drop)]
pub struct Session {
    journal: Journal,
    jobs: Jobs,
    events: Record,
    refused: bool,
    // of the current version, after a command that asked for them
    faults: Option<Vec<VertexFault>>,
}

impl Model for Session {
    ghost use Rattle.job_register.specs.View.{SessionView, record_events};
    ghost use Rattle.job_register.specs.Kept.{IsSession};

    ghost Value = { SessionView };

    ghost view = { λ s. record {
      events = record_events s.events;
      state = record { journal = s.journal; jobs = s.jobs };
    } };

    ghost invariant = { λ s.
        IsSession (record { journal = s.journal; jobs = s.jobs }) s.refused s.faults (record_events s.events) };
}

impl Session {
    ghost use Rattle.worker_split.specs.Tasks.{task_of, IsRightOutcome};
    ghost use Rattle.worker_split.specs.Settled.{settled};
    ghost use Rattle.worker_split.specs.declared.outcome.Outcome.{Outcome};
    ghost use Rattle.fold_jobs.specs.Machine.{IsRightIn, IsRightWhereLive, IsPosted, MatchesIn, task_in, needed_in};
    ghost use Rattle.fold_jobs.specs.Waiting.{waiting_in};
    ghost use Rattle.undo_journal.specs.Versions.{pattern_at};
    ghost use Rattle.job_register.specs.View.{record_events};
    ghost use Rattle.job_register.specs.Machine.{first_state, IsReady, IsAnswered};
    ghost use Rattle.job_register.specs.Legal.{IsLegal, journal_after, commands_in, has_refusal};
    ghost use Rattle.job_register.specs.Counts.{running_replies, accepted_outcomes, peeks_too_early};
    ghost use Rattle.job_register.specs.RecordVersions.{KeepsVersions};
    ghost use Rattle.job_register.specs.FoldingRecords.{EnumeratesOrders};
    ghost use Rattle.job_register.specs.Text.{text_of, last_text, text_at, reply_text, body_text, listing_text, checks_text};

    /// A session over version 0, the square sheet with nothing on it. A job is searched in at most `most` pieces.
    #[tactic(auto, unfolding(crate::specs::Edits::first_journal))]
    pub fn open(alloc: Global, most: u32) -> Result<Session, AllocError>
        requires { most ≡ 1 }
        ensures { IfOk result (λ session. session ≡ record { events = []; state = first_state most }) }
    {
        let journal = Journal::open(alloc, Pattern::empty(Sheet::square(alloc)?))?;
        Ok(Session {
            journal,
            jobs: Jobs::new(alloc, most),
            events: Record::new(alloc),
            refused: false,
            faults: None,
        })
    }

    /// Answers a command, and adds it with its reply to the record; `write_last` writes the reply. Each version keeps
    /// its pattern. Without memory the session stays as it was.
    pub fn step<R: Threads + Sync>(
        &mut self,
        rt: &R,
        alloc: Global,
        command: Command,
    ) -> Result<(), AllocError>
        requires condition { IsTrue (meets_condition command) }
        requires ready { IsReady self.old.state command }
        ensures answer { OnOk result ((reply : Reply)
            × (self.new.events ≡ self.old.events ++ Event.Made command reply ∷ [])
            × IsAnswered self.old.state command reply self.new.state) }
        ensures legal { IsLegal self.new.state.jobs.most self.new.events }
        ensures most { self.new.state.jobs.most ≡ self.old.state.jobs.most }
        ensures text { OnOk result
            (text_of self.new.events ≡ text_of self.old.events ++ last_text self.new.events) }
        ensures commands { OnOk result
            (commands_in self.new.events ≡ commands_in self.old.events ++ command ∷ []) }
        ensures running { OnOk result (running_replies self.new.events
            ≡ running_replies self.old.events + (if peeks_too_early self.old.state command then 1 else 0)) }
        ensures outcomes { accepted_outcomes self.new.events ≡ accepted_outcomes self.old.events }
        ensures right { (x : Outcome) → IsRightIn self.old.state.jobs x → IsRightIn self.new.state.jobs x }
        ensures versions { KeepsVersions self.old.events self.new.events }
        ensures err { OnErr result (self.new ≡ self.old) }
    {
        right_outcomes_stay();
        self.events.list.reserve(1)?;
        let reply = answer_command(
            rt,
            alloc,
            &mut self.journal,
            &mut self.jobs,
            &mut self.faults,
            &command,
        )?;
        self.refused = refused_after(self.refused, &reply);
        self.events
            .list
            .push(Event::Made { command, reply })
            .unwrap();
        Ok(())
    }

    /// Takes an outcome that answers the last task of a piece of a job that was not cancelled, and adds it to the record.
    /// Any other changes nothing but the record, and comes back. The record keeps a copy, whose lists have no room to
    /// grow. Without memory the session stays as it was.
    pub fn post(&mut self, outcome: Outcome) -> Result<Taken, AllocError>
        requires { IsRightWhereLive self.old.state.jobs outcome }
        ensures posted { IfOk result (λ taken.
            IsPosted self.old.state.jobs (settled outcome) taken self.new.state.jobs) }
        ensures event { IfOk result (λ taken. self.new.events
            ≡ self.old.events ++ Event.Posted (settled outcome) (is_accepted taken) ∷ []) }
        ensures accepted { IfOk result (λ taken. MatchesIn self.old.state.jobs outcome
            → taken ≡ Taken.Accepted) }
        ensures journal { self.new.state.journal ≡ self.old.state.journal }
        ensures fewer { IfOk result (λ taken. taken ≡ Taken.Accepted
            → waiting_in self.old.state.jobs outcome.job ≡ waiting_in self.new.state.jobs outcome.job + 1) }
        ensures legal { IsLegal self.new.state.jobs.most self.new.events }
        ensures most { self.new.state.jobs.most ≡ self.old.state.jobs.most }
        ensures text { text_of self.new.events ≡ text_of self.old.events }
        ensures commands { commands_in self.new.events ≡ commands_in self.old.events }
        ensures running { running_replies self.new.events ≡ running_replies self.old.events }
        ensures outcomes { accepted_outcomes self.new.events ≤ accepted_outcomes self.old.events + 1 }
        ensures right { (x : Outcome) → IsRightIn self.old.state.jobs x → IsRightIn self.new.state.jobs x }
        ensures versions { KeepsVersions self.old.events self.new.events }
        ensures err { OnErr result (self.new ≡ self.old) }
    {
        right_outcomes_stay();
        self.events.list.reserve(1)?;
        let kept = outcome.copy()?;
        let taken = self.jobs.post(kept.copy()?);
        let accepted = was_accepted(&taken);
        self.events
            .list
            .push(Event::Posted {
                outcome: kept,
                accepted,
            })
            .unwrap();
        Ok(taken)
    }

    /// What a piece of a job has still to answer in the open ask, if the job is there and was not cancelled.
    pub fn task(&self, job: u32, piece: u32) -> Result<Option<Task>, AllocError>
        ensures task { IfOk result (λ task. option_map task_of task ≡ task_in self.now.state.jobs job piece) }
        ensures job { IfOk result (λ task. IfSome task (λ t. t.job ≡ job)) }
        ensures right { IfOk result (λ task. IfSome task (λ t. (x : Outcome) → IsRightOutcome (task_of t) x
            → IsRightIn self.now.state.jobs x)) }
        ensures answers { IfOk result (λ task. IfSome task (λ t. (x : Outcome) → IsRightOutcome (task_of t) x
            → MatchesIn self.now.state.jobs x)) }
    {
        self.jobs.task(job, piece)
    }

    /// The piece whose outcome the open ask of a job waits for, if the job is there and was not cancelled.
    pub fn needs(&self, job: u32) -> Option<u32>
        ensures needed { result ≡ needed_in self.now.state.jobs job }
        ensures task { IfSome result (λ piece. IsSome (task_in self.now.state.jobs job piece)) }
    {
        self.jobs.needs(job)
    }

    /// Appends the whole text of the last reply: its first line, for a listing the lines of the listed version, and for
    /// local checks a line for each fault. An outcome that was posted has none. Without memory the bytes stay as they
    /// were.
    pub fn write_last(&self, out: &mut Vec<u8>) -> Result<(), AllocError>
        ensures ok { OnOk result (out.new.items ≡ out.old.items ++ last_text self.now.events) }
        ensures err { OnErr result (out.new.items ≡ out.old.items) }
    {
        match self.events.list.as_slice().last() {
            Some(Event::Made { reply, .. }) => self.write_reply(out, reply),
            Some(Event::Posted { .. }) | None => Ok(()),
        }
    }

    fn write_reply(&self, out: &mut Vec<u8>, reply: &Reply) -> Result<(), AllocError>
        ensures ok { OnOk result
            (out.new.items ≡ out.old.items ++ reply_text (journal_after self.now.events) reply.now) }
        ensures err { OnErr result (out.new.items ≡ out.old.items) }
    {
        let before = out.len();
        write_head(out, reply)?;
        let written = self.write_body(out, reply);
        all_or_nothing(out, before, written)
    }

    fn write_body(&self, out: &mut Vec<u8>, reply: &Reply) -> Result<(), AllocError>
        ensures ok { OnOk result
            (out.new.items ≡ out.old.items ++ body_text (journal_after self.now.events) reply.now) }
        ensures err { OnErr result (out.new.items ≡ out.old.items) }
    {
        match *reply {
            Reply::Listed { version, .. } => self.write_listing(out, version),
            Reply::Checked { version, .. } => self.write_checks(out, version),
            _ => Ok(()),
        }
    }

    fn write_listing(&self, out: &mut Vec<u8>, version: u32) -> Result<(), AllocError>
        ensures ok { OnOk result
            (out.new.items ≡ out.old.items
            ++ listing_text (pattern_at (journal_after self.now.events) version)) }
        ensures err { OnErr result (out.new.items ≡ out.old.items) }
    {
        match self.journal.get(version)? {
            Some(pattern) => write_pattern(out, pattern.as_ref()),
            None => Ok(()),
        }
    }

    fn write_checks(&self, out: &mut Vec<u8>, version: u32) -> Result<(), AllocError>
        ensures ok { OnOk result
            (out.new.items ≡ out.old.items
            ++ checks_text (pattern_at (journal_after self.now.events) version)) }
        ensures err { OnErr result (out.new.items ≡ out.old.items) }
    {
        if let Some(faults) = &self.faults {
            if version == self.journal.current() {
                return write_faults(out, faults.as_slice());
            }
        }
        match self.journal.get(version)? {
            Some(pattern) => {
                let faults = check(*out.allocator(), pattern.as_ref())?;
                write_faults(out, faults.as_slice())
            }
            None => Ok(()),
        }
    }

    /// Whether some reply so far was a refusal.
    pub fn has_refusal(&self) -> bool
        ensures { result ≡ has_refusal self.now.events }
    {
        self.refused
    }

    /// The record so far.
    pub fn events(&self) -> &Record
        ensures events { record_events result.now ≡ self.now.events }
        ensures legal { IsLegal self.now.state.jobs.most self.now.events }
        ensures enumeration { EnumeratesOrders self.now.state.jobs.most self.now.events }
    {
        records_enumerate();
        &self.events
    }

    /// The whole record.
    pub fn finish(self) -> Record
        ensures events { record_events result ≡ self.events }
        ensures legal { IsLegal self.state.jobs.most self.events }
        ensures enumeration { EnumeratesOrders self.state.jobs.most self.events }
    {
        records_enumerate();
        self.events
    }
}
