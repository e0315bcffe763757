//! The answer to one command.

ghost use Rattle.std.specs.Prelude.{◌≡◌, IfOk, OnErr, IsTrue};
ghost use Rattle.script_lang.specs.Script.{meets_condition};
ghost use Rattle.job_register.specs.Kept.{AreCurrent};
ghost use Rattle.job_register.specs.Machine.{IsReady, IsAnswered};

use crate::editing::{commit_change, count_faults, list, load_block, new_sheet, redo, undo};
use crate::folding::{another, cancel, fold, set_budget, show};
use crease_store::{add, clear, delete, merge, set_kind};
use fold_jobs::Jobs;
use script_lang::{Command, Reply, refusal_of_line};
use std::alloc::{AllocError, Global};
use std::thread::Threads;
use undo_journal::Journal;
use vertex_checks::VertexFault;

/// Answers a command. Without memory the journal and the jobs stay as they were. `faults` are those of the current
/// version where the command asks for them, else none.
#[tactic(auto, using(crate::proofs::Told::edited, crate::proofs::Told::edit_told))]
pub(crate) fn answer_command<R: Threads + Sync>(
    rt: &R,
    alloc: Global,
    journal: &mut Journal,
    jobs: &mut Jobs,
    faults: &mut Option<Vec<VertexFault>>,
    command: &Command,
) -> Result<Reply, AllocError>
    requires condition { IsTrue (meets_condition command.now) }
    requires ready { IsReady (record { journal = journal.old; jobs = jobs.old }) command.now }
    ensures current { AreCurrent faults.new journal.new }
    ensures ok { IfOk result (λ reply. IsAnswered (record { journal = journal.old; jobs = jobs.old })
        command.now reply (record { journal = journal.new; jobs = jobs.new })) }
    ensures err_journal { OnErr result (journal.new ≡ journal.old) }
    ensures err_jobs { OnErr result (jobs.new ≡ jobs.old) }
{
    *faults = None;
    match command {
        Command::Add { kind, from, to } => {
            let pattern = journal.current_pattern()?;
            let change = add(alloc, pattern.as_ref(), *kind, from, to);
            commit_change(journal, change)
        }
        Command::Delete { from, to } => {
            let pattern = journal.current_pattern()?;
            let change = delete(alloc, pattern.as_ref(), from, to);
            commit_change(journal, change)
        }
        Command::Set { kind, from, to } => {
            let pattern = journal.current_pattern()?;
            let change = set_kind(alloc, pattern.as_ref(), *kind, from, to);
            commit_change(journal, change)
        }
        Command::Merge => {
            let pattern = journal.current_pattern()?;
            let change = merge(alloc, pattern.as_ref());
            commit_change(journal, change)
        }
        Command::Clear => {
            let pattern = journal.current_pattern()?;
            let change = clear(pattern.as_ref());
            commit_change(journal, change)
        }
        Command::Sheet { corners } => new_sheet(alloc, journal, corners),
        Command::Load { lines, stop } => load_block(alloc, journal, lines, *stop),
        Command::Undo => Ok(undo(journal)),
        Command::Redo => Ok(redo(journal)),
        Command::List => Ok(list(journal)),
        Command::Check => count_faults(alloc, journal, faults),
        Command::Fold => fold(rt, alloc, journal, jobs),
        Command::Another { job } => Ok(another(jobs, *job)),
        Command::Budget { budget } => Ok(set_budget(jobs, *budget)),
        Command::Peek { job } => Ok(show(jobs, *job)),
        Command::Wait { job } => Ok(show(jobs, *job)),
        Command::Cancel { job } => Ok(cancel(jobs, *job)),
        Command::Bad { fault } => Ok(Reply::Refused {
            refusal: refusal_of_line(*fault),
        }),
    }
}
