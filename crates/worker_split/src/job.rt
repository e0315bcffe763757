ghost use Rattle.std.specs.Prelude.{◌≡◌, ◌+◌, ◌<◌, ◌≤◌, ◌↔◌, ℕ, length, IfOk, IsTrue, IsSome, IsNone, IfSome, Option, None, Some, option_map, MatchOption};
ghost use Rattle.std.specs.Arc.{arc_value};
ghost use Rattle.worker_split.specs.Job.{done_before};

use crate::answers::{JobAnswer, Kept, Taken};
use crate::outcome::Outcome;
use crate::piece::{LastTask, Piece, PieceEnd};
use crate::splitting::pieces;
use crate::task::Task;
use search_cursor::Position;
use sign_rules::Rules;
use std::alloc::{AllocError, Global};
use std::marker::Model;
use std::sync::Arc;

/// A search for the orders of a version's rules, in pieces that workers search.
#[derive(Drop)]
pub struct JobState {
    job: u32,
    version: u32,
    rules: Arc<Rules>,
    pieces: Vec<Piece>,
    ask: Option<u64>,
}

impl Model for JobState {
    ghost use Rattle.std.specs.Arc.{arc_value};
    ghost use Rattle.worker_split.specs.Job.{JobView};
    ghost use Rattle.worker_split.specs.Invariant.{IsJob};

    ghost Value = { JobView };

    ghost view = { λ j. record {
      job = j.job;
      version = j.version;
      rules = arc_value j.rules;
      pieces = j.pieces.items;
      ask = j.ask;
    } };

    ghost invariant = { λ j. IsJob (arc_value j.rules) j.pieces.items j.ask };
}

impl JobState {
    ghost use Rattle.worker_split.specs.Tasks.{task_of, IsRightOutcome};
    ghost use Rattle.worker_split.specs.Job.{opened_job, asked, task_at, piece_at, Matches, IsRightFor, IsRightWhereNamed, IsTaken, kept_of, next_answer, after_answer, waits_for, needed};
    ghost use Rattle.worker_split.specs.Waiting.{waiting};
    ghost use Rattle.worker_split.specs.declared.answers.Taken.TheVariants.{Accepted};
    ghost use Rattle.worker_split.specs.declared.piece.Piece.{Piece};
    ghost use Rattle.worker_split.specs.declared.outcome.Outcome.{Outcome};

    /// A job of which nothing was asked yet.
    pub fn open(
        alloc: Global,
        job: u32,
        version: u32,
        rules: Arc<Rules>,
        most: u32,
    ) -> Result<JobState, AllocError>
        requires { most ≡ 1 }
        ensures { IfOk result (λ j. j ≡ opened_job job version (arc_value rules) most) }
    {
        let prefixes = pieces(alloc, &rules, most)?;
        let mut pieces = Vec::with_capacity(alloc, prefixes.len())?;
        for prefix in prefixes.iter() {
            pieces.push(Piece::new(prefix)?)?;
        }
        Ok(JobState {
            job,
            version,
            rules,
            pieces,
            ask: None,
        })
    }

    /// Opens an ask, where none is open: each open piece has a new task then.
    pub fn ask(&mut self, budget: u64) -> bool
        requires { 1 ≤ budget }
        ensures opens { IsTrue result ↔ IsNone self.old.ask }
        ensures state { self.new ≡ asked self.old budget }
    {
        if self.ask.is_some() {
            return false;
        }
        for piece in self.pieces.iter_mut() {
            piece.ask(budget);
        }
        self.ask = Some(budget);
        true
    }

    /// The version of the pattern whose rules these are.
    pub fn version(&self) -> u32
        ensures { result ≡ self.now.version }
    {
        self.version
    }

    /// Whether an ask is open.
    pub fn asked(&self) -> bool
        ensures { IsTrue result ↔ IsSome self.now.ask }
    {
        self.ask.is_some()
    }

    /// What a piece, counted from 1, has still to answer in the open ask.
    pub fn task(&self, piece: u32) -> Result<Option<Task>, AllocError>
        ensures task { IfOk result (λ task. option_map task_of task ≡ task_at self.now piece) }
        ensures right { IfOk result (λ task. IfSome task (λ t. (x : Outcome) → IsRightOutcome (task_of t) x
            → IsRightFor self.now x)) }
        ensures answers { IfOk result (λ task. IfSome task (λ t. (x : Outcome) → IsRightOutcome (task_of t) x
            → Matches self.now x)) }
        ensures budget { IfOk result (λ task. IfSome task (λ t. self.now.ask ≡ Some t.budget)) }
    {
        if self.ask.is_none() {
            return Ok(None);
        }
        let Some(kept) = self.piece(piece) else {
            return Ok(None);
        };
        match (&kept.end, kept.last) {
            (PieceEnd::Open, LastTask::Asked { budget }) => Ok(Some(Task {
                job: self.job,
                version: self.version,
                piece,
                rules: Arc::try_clone(&self.rules)?,
                prefix: kept.prefix.copy()?,
                position: kept.kept.copy()?,
                budget,
            })),
            _ => Ok(None),
        }
    }

    /// Takes an outcome that answers the last task of its piece. Any other changes nothing, and comes back.
    pub fn accept(&mut self, outcome: Outcome) -> Taken
        requires { IsRightWhereNamed self.old outcome }
        ensures taken { IsTaken self.old outcome result self.new }
        ensures fewer { result ≡ Accepted → waiting self.old ≡ waiting self.new + 1 }
    {
        if !self.matches(&outcome) {
            return Taken::Stranger {
                kept: self.kept(outcome.piece),
                came: outcome,
            };
        }
        let piece = &mut self.pieces[outcome.piece as usize - 1];
        piece.accept(outcome.budget, outcome.end);
        Taken::Accepted
    }

    /// What the open ask came to, by the first piece that is not done. Each answer but NotReady closes
    /// the ask.
    pub fn answer(&mut self) -> JobAnswer
        requires { IsSome self.old.ask }
        ensures answer { result ≡ next_answer self.old }
        ensures state { self.new ≡ after_answer self.old result }
    {
        let first = done_before(&self.pieces);
        if first >= self.pieces.len() {
            self.ask = None;
            return JobAnswer::NoMore;
        }
        let piece = &mut self.pieces[first];
        match piece.answer(first as u32 + 1) {
            JobAnswer::NotReady(number) => JobAnswer::NotReady(number),
            answer => {
                self.ask = None;
                answer
            }
        }
    }

    /// The piece whose outcome an open ask waits for. It has a task.
    pub fn needs(&self) -> Option<u32>
        ensures needed { result ≡ needed self.now }
        ensures task { IfSome result (λ piece. IsSome (task_at self.now piece)) }
    {
        if self.ask.is_none() {
            return None;
        }
        self.first_waiting()
    }

    /// The first piece that is not done, where it has no outcome of its last task yet.
    fn first_waiting(&self) -> Option<u32>
        ensures { result ≡ waits_for (next_answer self.now) }
    {
        let first = done_before(&self.pieces);
        match self.pieces.get(first) {
            Some(piece) if piece.is_waiting() => Some(first as u32 + 1),
            _ => None,
        }
    }

    /// What the job knows of a piece and its last task.
    pub fn kept(&self, piece: u32) -> Kept
        ensures { result ≡ kept_of self.now piece }
    {
        let pieces = self.pieces.len() as u32;
        let (piece, last) = match self.piece(piece) {
            Some(known) => (piece, known.last),
            None => (0, LastTask::Never),
        };
        let (budget, answered) = match last {
            LastTask::Never => (0, false),
            LastTask::Asked { budget } => (budget, false),
            LastTask::Answered { budget } => (budget, true),
        };
        Kept {
            job: self.job,
            version: self.version,
            piece,
            pieces,
            budget,
            answered,
        }
    }

    /// The position from which a piece goes on.
    pub fn kept_position(&self, piece: u32) -> Option<&Position>
        ensures { MatchOption result (piece_at self.now piece ≡ None)
            (λ position. option_map (λ (p : Piece). p.kept) (piece_at self.now piece) ≡ Some position.now) }
    {
        match self.piece(piece) {
            Some(known) => Some(&known.kept),
            None => None,
        }
    }

    fn piece(&self, piece: u32) -> Option<&Piece>
        ensures { MatchOption result (piece_at self.now piece ≡ None)
            (λ p. piece_at self.now piece ≡ Some p.now) }
    {
        if piece == 0 {
            return None;
        }
        self.pieces.get(piece as usize - 1)
    }

    /// Whether the outcome names the last task of its piece, and that is not answered.
    pub fn matches(&self, outcome: &Outcome) -> bool
        ensures { IsTrue result ↔ Matches self.now outcome.now }
    {
        match self.piece(outcome.piece) {
            Some(known) => outcome.job == self.job
                && outcome.version == self.version
                && known.is_answered_by(outcome),
            None => false,
        }
    }
}

/// How many pieces stand before the first that is not done.
fn done_before(pieces: &[Piece]) -> usize
    ensures { result ≡ done_before pieces.now }
{
    for (place, piece) in pieces.iter().enumerate() {
        if !piece.is_done() {
            return place;
        }
    }
    pieces.len()
}
