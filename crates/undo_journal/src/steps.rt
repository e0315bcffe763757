//! What a journal keeps of each version: how it was made, and its pattern or how that differs from its parent's.

ghost use Rattle.std.specs.Prelude.{◌≡◌, ◌<◌, length, IfOk};
ghost use Rattle.std.specs.Arc.{arc_value};
ghost use Rattle.crease_model.specs.Rules.{IsPattern};
ghost use Rattle.crease_model.specs.View.{PatternView};
ghost use Rattle.undo_journal.specs.Steps.{changed, kept_pattern, pattern_in, versions_of, AreMadeOfEarlier, ArePatterns};
ghost use Rattle.undo_journal.specs.Invariant.{IsStored};

use crate::edits::{Edit, edits_between, with_edits};
use crease_model::{Pattern, Piece, Sheet};
use plane_geometry::Segment;
use std::alloc::{AllocError, Global};
use std::sync::Arc;

/// A pattern is kept whole where it stands a multiple of this many steps behind version 0.
const WHOLE_STEPS: u32 = 64;

/// How a pattern differs from another: its sheet, and what it takes and puts.
#[derive(Drop)]
pub struct Change {
    pub sheet: Sheet,
    pub pieces: Vec<Edit<Piece>>,
    pub aux: Vec<Edit<Segment>>,
}

impl Change {
    // The change from one pattern to another.
    fn between(alloc: Global, old: &Pattern, new: &Pattern) -> Result<Change, AllocError>
        ensures { IfOk result (λ change. changed old.now change ≡ new.now) }
    {
        Ok(Change {
            sheet: new.sheet().copy()?,
            pieces: edits_between(alloc, old.pieces(), new.pieces())?,
            aux: edits_between(alloc, old.aux(), new.aux())?,
        })
    }

    // How much is taken and put.
    fn size(&self) -> usize {
        self.pieces.len().saturating_add(self.aux.len())
    }

    // A pattern with this change made.
    fn made(&self, alloc: Global, old: &Pattern) -> Result<Pattern, AllocError>
        requires { IsPattern (changed old.now self.now) }
        ensures { IfOk result (λ new. new ≡ changed old.now self.now) }
    {
        let sheet = self.sheet.copy()?;
        let pieces = with_edits(alloc, old.pieces(), self.pieces.as_slice())?;
        let aux = with_edits(alloc, old.aux(), self.aux.as_slice())?;
        Ok(Pattern::of(sheet, pieces, aux))
    }
}

/// A pattern, or how it differs from that of the parent.
#[derive(Drop)]
pub enum Kept {
    Whole(Arc<Pattern>),
    Changed(Change),
}

/// A version: what it was made from, how many steps behind version 0 it stands, how many pieces and auxiliary lines it
/// has, and its pattern.
#[derive(Drop)]
pub struct Step {
    pub parent: u32,
    pub depth: u32,
    pub size: u32,
    pub kept: Kept,
}

/// What is kept of a pattern so many steps behind version 0: all of it, or the change, where that is no longer.
pub fn kept_of(
    alloc: Global,
    depth: u32,
    parent: &Pattern,
    pattern: &Arc<Pattern>,
) -> Result<Kept, AllocError>
    ensures { IfOk result (λ kept. kept_pattern parent.now kept ≡ arc_value pattern.now) }
{
    if depth % WHOLE_STEPS == 0 {
        return Ok(Kept::Whole(Arc::try_clone(pattern)?));
    }
    let change = Change::between(alloc, parent, pattern.as_ref())?;
    if (pattern.as_ref().size() as usize) < change.size() {
        Ok(Kept::Whole(Arc::try_clone(pattern)?))
    } else {
        Ok(Kept::Changed(change))
    }
}

/// The pattern of a version, made anew from the last one before it that is kept whole.
pub fn rebuilt(alloc: Global, steps: &[Step], version: usize) -> Result<Pattern, AllocError>
    requires exists { version < length steps.now }
    requires earlier { AreMadeOfEarlier steps.now }
    requires rules { ArePatterns (versions_of steps.now) }
    ensures { IfOk result (λ pattern. pattern ≡ pattern_in (versions_of steps.now) version) }
{
    let step = &steps[version];
    match &step.kept {
        Kept::Whole(pattern) => pattern.as_ref().copy(),
        Kept::Changed(change) => {
            let parent = rebuilt(alloc, steps, step.parent as usize)?;
            change.made(alloc, &parent)
        }
    }
}

/// A pattern that is shared from now on.
pub fn shared(alloc: Global, pattern: Pattern) -> Result<Arc<Pattern>, AllocError>
    ensures { IfOk result (λ p. arc_value p ≡ pattern) }
{
    Ok(Arc::new(alloc, pattern)?)
}

/// The pattern of a version, shared; the one at hand is that of another version, or of this one.
pub fn pattern_of(
    alloc: Global,
    steps: &[Step],
    hand_version: u32,
    hand: &Arc<Pattern>,
    version: u32,
) -> Result<Arc<Pattern>, AllocError>
    requires stored { IsStored steps.now hand_version (arc_value hand.now) }
    requires exists { version < length steps.now }
    ensures { IfOk result (λ p. arc_value p ≡ pattern_in (versions_of steps.now) version) }
{
    if version == hand_version {
        return Arc::try_clone(hand);
    }
    shared(alloc, rebuilt(alloc, steps, version as usize)?)
}
