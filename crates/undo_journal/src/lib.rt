//! The version journal of an editor: every accepted change is a version, undo goes to the version that the current one
//! was made from, and redo goes back. A version is kept as its change; some are kept whole.
#![tactic(auto)]

ghost use Rattle.std.specs.Prelude.{◌≡◌, ℕ, [], ◌-◌, ◌<◌, ◌≤◌, ◌↔◌, length, IfOk, IfErr, OnOk, OnErr, IsErr, IsErrOf, MatchResult, MatchOption, IsNone, Some, None, option_map};
ghost use Rattle.std.specs.Arc.{arc_value};
ghost use Rattle.crease_model.specs.Rules.{size_of};
ghost use Rattle.undo_journal.specs.Versions.{greatest_version, new_journal, committed, undone, redone, greatest_of, pattern_at, current_pattern, KeepsPatterns};

mod edits;
mod steps;

use crease_model::Pattern;
use std::alloc::{AllocError, AllocFailed, Global};
use std::marker::Model;
use std::sync::Arc;
use steps::{Kept, Step, kept_of, pattern_of, shared};
use thiserror::Error;

/// The last version number.
pub const GREATEST: usize = 10_000;

/// Why a pattern did not become a version.
#[derive(Clone, Copy, Debug, PartialEq, Eq, Error)]
pub enum JournalFault {
    #[error("version 10000 is the last one")]
    Full,
    #[error("out of memory")]
    Memory,
}

impl From<AllocError> for JournalFault {
    ghost use Rattle.std.specs.Prelude.{◌≡◌};
    ghost use Rattle.undo_journal.specs.declared.JournalFault.TheVariants.{Memory};

    ghost from_gives = { λ _ e. e ≡ Memory };

    fn from(_fault: AllocError) -> JournalFault {
        JournalFault::Memory
    }
}

/// Why there is no pattern to answer.
#[derive(Clone, Copy, Debug, PartialEq, Eq, Error)]
pub enum VersionFault {
    #[error("there is no such version")]
    NoSuchVersion,
    #[error("out of memory")]
    Memory,
}

impl From<AllocError> for VersionFault {
    ghost use Rattle.std.specs.Prelude.{◌≡◌};
    ghost use Rattle.undo_journal.specs.declared.VersionFault.TheVariants.{Memory};

    ghost from_gives = { λ _ e. e ≡ Memory };

    fn from(_fault: AllocError) -> VersionFault {
        VersionFault::Memory
    }
}

/// Version 0 is current.
#[derive(Clone, Copy, Debug, PartialEq, Eq, Error)]
#[error("nothing to undo")]
pub struct NothingToUndo;

/// The redo list is empty.
#[derive(Clone, Copy, Debug, PartialEq, Eq, Error)]
#[error("nothing to redo")]
pub struct NothingToRedo;

/// All versions, the current number, and the redo list. One pattern is at hand, most often that of the current version.
#[derive(Drop)]
pub struct Journal {
    steps: Vec<Step>,
    current: u32,
    redo: Vec<u32>,
    hand_version: u32,
    hand: Arc<Pattern>,
}

impl Model for Journal {
    ghost use Rattle.std.specs.Prelude.{reverse, vec_capacity, length, ◌≤◌};
    ghost use Rattle.std.specs.Arc.{arc_value};
    ghost use Rattle.undo_journal.specs.Versions.{JournalView};
    ghost use Rattle.undo_journal.specs.Steps.{versions_of};
    ghost use Rattle.undo_journal.specs.Invariant.{IsJournal, IsStored};

    ghost Value = { JournalView };

    ghost view = { λ j. record {
      versions = versions_of j.steps.items;
      current = j.current;
      redo = reverse j.redo.items;
    } };

    // The room that undo needs in the redo list is taken with each version.
    ghost invariant = { λ j.
        IsJournal (record
        { versions = versions_of j.steps.items; current = j.current; redo = reverse j.redo.items })
        × (length j.steps.items ≤ vec_capacity j.redo)
        × IsStored j.steps.items j.hand_version (arc_value j.hand) };
}

impl Journal {
    ghost use Rattle.undo_journal.specs.Invariant.{IsNextStep};

    /// The journal whose version 0 is this pattern.
    pub fn open(alloc: Global, first: Pattern) -> Result<Journal, AllocError>
        ensures { IfOk result (λ journal. journal ≡ new_journal first) }
    {
        // tells the rules of the pattern
        let _ = first.pieces();
        let size = first.size();
        let redo = Vec::with_capacity(alloc, 1)?;
        let mut steps = Vec::with_capacity(alloc, 1)?;
        let hand = shared(alloc, first)?;
        steps.push(Step {
            parent: 0,
            depth: 0,
            size,
            kept: Kept::Whole(Arc::try_clone(&hand)?),
        })?;
        Ok(Journal {
            steps,
            current: 0,
            redo,
            hand_version: 0,
            hand,
        })
    }

    /// The current number.
    pub fn current(&self) -> u32
        ensures value { result ≡ self.now.current }
        ensures exists { result < length self.now.versions }
    {
        self.current
    }

    /// The greatest number.
    pub fn greatest(&self) -> u32
        ensures value { result ≡ greatest_of self.now }
        ensures most { result ≤ greatest_version }
    {
        (self.steps.len() - 1) as u32
    }

    /// The number of pieces and auxiliary lines of a version.
    pub fn size(&self, version: u32) -> Option<u32>
        ensures { result ≡ option_map size_of (pattern_at self.now version) }
    {
        if (version as usize) < self.steps.len() {
            Some(self.steps[version as usize].size)
        } else {
            None
        }
    }

    fn allocator(&self) -> Global {
        *self.steps.allocator()
    }

    /// The pattern of a version, shared.
    pub fn get(&self, version: u32) -> Result<Option<Arc<Pattern>>, AllocError>
        ensures pattern { IfOk result (λ found. option_map arc_value found ≡ pattern_at self.now version) }
        ensures missing { IfOk result (λ found. IsNone found → greatest_of self.now < version) }
    {
        if version as usize >= self.steps.len() {
            return Ok(None);
        }
        Ok(Some(pattern_of(
            self.allocator(),
            self.steps.as_slice(),
            self.hand_version,
            &self.hand,
            version,
        )?))
    }

    /// Takes the pattern of the current version to hand, and shares it.
    pub fn current_pattern(&mut self) -> Result<Arc<Pattern>, AllocError>
        ensures pattern { IfOk result (λ p. pattern_at self.old self.old.current ≡ Some (arc_value p)) }
        ensures same { self.new ≡ self.old }
    {
        let pattern = pattern_of(
            self.allocator(),
            self.steps.as_slice(),
            self.hand_version,
            &self.hand,
            self.current,
        )?;
        self.hand = Arc::try_clone(&pattern)?;
        self.hand_version = self.current;
        Ok(pattern)
    }

    /// A copy of the pattern of a version.
    pub fn pattern(&self, version: u32) -> Result<Pattern, VersionFault>
        ensures ok { IfOk result (λ p. pattern_at self.now version ≡ Some p) }
        ensures missing { IsErrOf result VersionFault.NoSuchVersion ↔ (greatest_of self.now < version) }
    {
        if version > self.greatest() {
            return Err(VersionFault::NoSuchVersion);
        }
        match self.get(version)? {
            Some(pattern) => Ok(pattern.as_ref().copy()?),
            None => Err(VersionFault::NoSuchVersion),
        }
    }

    // What is kept of a pattern that is made from the current one.
    fn next_step(&mut self, pattern: &Arc<Pattern>) -> Result<Step, AllocError>
        ensures step { IfOk result (IsNextStep self.old (arc_value pattern.now)) }
        ensures same { self.new ≡ self.old }
    {
        // tells the rules of the pattern
        let _ = pattern.as_ref().pieces();
        let parent = self.current_pattern()?;
        let depth = self.steps[self.current as usize].depth.saturating_add(1);
        let kept = kept_of(self.allocator(), depth, parent.as_ref(), pattern)?;
        Ok(Step {
            parent: self.current,
            depth,
            size: pattern.as_ref().size(),
            kept,
        })
    }

    // Adds what is kept of a pattern, and takes that to hand.
    fn push(&mut self, step: Step, hand: Arc<Pattern>) -> Result<(), AllocError>
        requires room { length self.old.versions ≤ greatest_version }
        requires next { IsNextStep self.old (arc_value hand) step }
        ensures ok { OnOk result (self.new ≡ committed self.old (arc_value hand)) }
        ensures err { OnErr result (self.new ≡ self.old) }
    {
        let count = self.steps.len();
        self.redo.reserve(count + 1 - self.redo.len())?;
        self.steps.reserve(1)?;
        self.steps.push(step).unwrap();
        self.current = count as u32;
        self.redo.clear();
        self.hand_version = count as u32;
        self.hand = hand;
        Ok(())
    }

    /// Makes the pattern a new version, whose parent is the current one, and empties the redo list. The number is the
    /// new version's. Each number from before keeps its pattern, and an undo right after makes the pattern current that
    /// was so before. A refusal leaves the journal as it was.
    pub fn commit(&mut self, pattern: Pattern) -> Result<u32, JournalFault>
        ensures ok { OnOk result (self.new ≡ committed self.old pattern) }
        ensures value { IfOk result (λ version. version ≡ length self.old.versions) }
        ensures full { IsErrOf result JournalFault.Full ↔ (greatest_of self.old ≡ greatest_version) }
        ensures err { OnErr result (self.new ≡ self.old) }
        ensures pattern { IfOk result (λ version. pattern_at self.new version ≡ Some pattern) }
        ensures patterns { KeepsPatterns self.old self.new }
        ensures undone { OnOk result (current_pattern (undone self.new) ≡ current_pattern self.old) }
    {
        if self.greatest() as usize >= GREATEST {
            return Err(JournalFault::Full);
        }
        // tells that there is a current version
        let _ = self.current();
        let hand = shared(self.allocator(), pattern)?;
        let step = self.next_step(&hand)?;
        self.push(step, hand)?;
        Ok(self.current)
    }

    /// Makes the parent of the current version current, and answers its number. No version changes, and a redo right
    /// after gives back the journal from before.
    pub fn undo(&mut self) -> Result<u32, NothingToUndo>
        ensures ok { OnOk result (self.new ≡ undone self.old) }
        ensures value { IfOk result (λ version. version ≡ self.new.current) }
        ensures refused { IsErr result ↔ (self.old.current ≡ 0) }
        ensures err { OnErr result (self.new ≡ self.old) }
        ensures patterns { (version : ℕ) → pattern_at self.new version ≡ pattern_at self.old version }
        ensures redone { OnOk result (redone self.new ≡ Some self.old) }
    {
        if self.current == 0 {
            return Err(NothingToUndo);
        }
        let parent = self.steps[self.current as usize].parent;
        self.redo.push(self.current).unwrap();
        self.current = parent;
        Ok(parent)
    }

    /// Makes the version current that the last undo left, and answers its number. No version changes, and an undo right
    /// after gives back the journal from before.
    pub fn redo(&mut self) -> Result<u32, NothingToRedo>
        ensures ok { OnOk result (redone self.old ≡ Some self.new) }
        ensures value { IfOk result (λ version. version ≡ self.new.current) }
        ensures refused { IsErr result ↔ (self.old.redo ≡ []) }
        ensures err { OnErr result (self.new ≡ self.old) }
        ensures patterns { (version : ℕ) → pattern_at self.new version ≡ pattern_at self.old version }
        ensures undone { OnOk result (undone self.new ≡ self.old) }
    {
        match self.redo.pop() {
            Some(version) => {
                self.current = version;
                Ok(version)
            }
            None => Err(NothingToRedo),
        }
    }
}
