//! The answers to commands about the pattern.

ghost use Rattle.std.specs.Prelude.{◌≡◌, IfOk, OnOk, OnErr, Some};
ghost use Rattle.script_lang.specs.declared.command.Command.{Command};
ghost use Rattle.std.specs.declared.result.Result.{Result};
ghost use Rattle.crease_model.specs.View.{PatternView};
ghost use Rattle.crease_store.specs.declared.faults.StoreRefusal.{StoreRefusal};
ghost use Rattle.crease_model.specs.NewSheet.{sheet_of};
ghost use Rattle.crease_model.specs.Rules.{size_of};
ghost use Rattle.crease_store.specs.Answer.{IsAnswer};
ghost use Rattle.crease_store.specs.Loading.{load_of};
ghost use Rattle.job_register.specs.Kept.{AreCurrent};
ghost use Rattle.job_register.specs.Edits.{answer, change_answer, version_answer, current_pattern_of, committed_answer, sheet_answer, load_answer, stop_answer};

use crease_model::{Pattern, Sheet, SheetFault};
use crease_store::{LoadStoreFault, StoreFault, load};
use script_lang::{
    Corners, LoadCause, LoadLines, LoadStop, Refusal, Reply, refusal_of_line, refusal_of_store,
};
use std::alloc::{AllocError, Global};
use undo_journal::{Journal, JournalFault};
use vertex_checks::{VertexFault, check};

/// The current version and the size of its pattern.
#[tactic(auto, using(crate::proofs::Told::size_told))]
fn current_version(journal: &Journal) -> (u32, u32)
    ensures version { result.0 ≡ journal.now.current }
    ensures pieces { result.1 ≡ size_of (current_pattern_of journal.now) }
{
    let version = journal.current();
    (version, journal.size(version).unwrap_or(0))
}

fn version_reply(journal: &Journal) -> Reply
    ensures { result ≡ (version_answer journal.now).reply }
{
    let (version, pieces) = current_version(journal);
    Reply::Version { version, pieces }
}

fn commit(journal: &mut Journal, pattern: Pattern) -> Result<Reply, AllocError>
    ensures ok { IfOk result (λ reply. record { reply = reply; journal = journal.new }
        ≡ committed_answer journal.old pattern) }
    ensures err { OnErr result (journal.new ≡ journal.old) }
{
    match journal.commit(pattern) {
        Ok(_) => Ok(version_reply(journal)),
        Err(JournalFault::Full) => Ok(Reply::Refused {
            refusal: Refusal::Full,
        }),
        Err(JournalFault::Memory) => Err(AllocError),
    }
}

// Commits the pattern of a change, or answers why there is none.
#[tactic(auto, using(crate::proofs::Told::refusal_told))]
pub(crate) fn commit_change(
    journal: &mut Journal,
    change: Result<Pattern, StoreFault>,
) -> Result<Reply, AllocError>
    ensures ok { IfOk result (λ reply. (defined : Result PatternView StoreRefusal) → IsAnswer change defined
        → record { reply = reply; journal = journal.new }
        ≡ change_answer journal.old defined) }
    ensures err { OnErr result (journal.new ≡ journal.old) }
{
    match change {
        Ok(pattern) => commit(journal, pattern),
        Err(fault) => match fault.refusal() {
            Some(refusal) => Ok(Reply::Refused {
                refusal: refusal_of_store(refusal),
            }),
            None => Err(AllocError),
        },
    }
}

pub(crate) fn new_sheet(
    alloc: Global,
    journal: &mut Journal,
    corners: &Corners,
) -> Result<Reply, AllocError>
    ensures ok { IfOk result (λ reply. record { reply = reply; journal = journal.new }
        ≡ sheet_answer journal.old (sheet_of corners.now)) }
    ensures err { OnErr result (journal.new ≡ journal.old) }
{
    match Sheet::new(alloc, corners.as_slice()) {
        Ok(sheet) => commit(journal, Pattern::empty(sheet)),
        Err(SheetFault::BadSheet { corner }) => Ok(Reply::Refused {
            refusal: Refusal::BadSheet { corner },
        }),
        Err(SheetFault::Memory) => Err(AllocError),
    }
}

// Commits a block that is all added, by how it ends.
fn stop(journal: &mut Journal, pattern: Pattern, end: LoadStop) -> Result<Reply, AllocError>
    ensures ok { IfOk result (λ reply. record { reply = reply; journal = journal.new }
        ≡ stop_answer journal.old end pattern) }
    ensures err { OnErr result (journal.new ≡ journal.old) }
{
    match end {
        LoadStop::Ended => commit(journal, pattern),
        LoadStop::Bad { number, fault } => Ok(Reply::Refused {
            refusal: Refusal::LoadLine {
                number,
                cause: LoadCause::Line { fault },
            },
        }),
        LoadStop::Unended => Ok(Reply::Refused {
            refusal: Refusal::LoadUnended,
        }),
    }
}

#[tactic(auto, using(crate::proofs::Told::load_refusal_told))]
pub(crate) fn load_block(
    alloc: Global,
    journal: &mut Journal,
    lines: &LoadLines,
    end: LoadStop,
) -> Result<Reply, AllocError>
    ensures ok { IfOk result (λ reply. record { reply = reply; journal = journal.new }
        ≡ load_answer journal.old end
        (load_of (current_pattern_of journal.old) lines.now)) }
    ensures err { OnErr result (journal.new ≡ journal.old) }
{
    let pattern = journal.current_pattern()?;
    match load(alloc, pattern.as_ref(), lines.as_slice()) {
        Ok(pattern) => stop(journal, pattern, end),
        Err(LoadStoreFault { number, fault }) => match fault.refusal() {
            Some(refusal) => Ok(Reply::Refused {
                refusal: Refusal::LoadLine {
                    number,
                    cause: LoadCause::Add { refusal },
                },
            }),
            None => Err(AllocError),
        },
    }
}

pub(crate) fn undo(journal: &mut Journal) -> Reply
    ensures { Some (record { reply = result; journal = journal.new }) ≡ answer journal.old Command.Undo }
{
    match journal.undo() {
        Ok(_) => version_reply(journal),
        Err(_) => Reply::Refused {
            refusal: Refusal::NothingToUndo,
        },
    }
}

pub(crate) fn redo(journal: &mut Journal) -> Reply
    ensures { Some (record { reply = result; journal = journal.new }) ≡ answer journal.old Command.Redo }
{
    match journal.redo() {
        Ok(_) => version_reply(journal),
        Err(_) => Reply::Refused {
            refusal: Refusal::NothingToRedo,
        },
    }
}

// Counts the faults of the current version, and keeps them for the text of the reply.
pub(crate) fn count_faults(
    alloc: Global,
    journal: &mut Journal,
    faults: &mut Option<Vec<VertexFault>>,
) -> Result<Reply, AllocError>
    ensures ok { IfOk result (λ reply. Some (record { reply = reply; journal = journal.new })
        ≡ answer journal.old Command.Check) }
    ensures current { OnOk result (AreCurrent faults.new journal.new) }
    ensures same { journal.new ≡ journal.old }
    ensures err { OnErr result (faults.new ≡ faults.old) }
{
    let pattern = journal.current_pattern()?;
    let found = check(alloc, pattern.as_ref())?;
    let count = found.as_slice().len() as u32;
    *faults = Some(found);
    Ok(Reply::Checked {
        version: journal.current(),
        faults: count,
    })
}

pub(crate) fn list(journal: &Journal) -> Reply
    ensures { Some (record { reply = result; journal = journal.now }) ≡ answer journal.now Command.List }
{
    let (version, pieces) = current_version(journal);
    Reply::Listed { version, pieces }
}
