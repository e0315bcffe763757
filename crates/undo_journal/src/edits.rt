//! What one list takes from another, and what it puts there.

ghost use Rattle.std.specs.Prelude.{◌≡◌, ◌+◌, ◌<◌, ◌≤◌, ◌∷◌, ◌++◌, List, length, take, drop, IfOk, IfSome, IsNone, IsTrue};
ghost use Rattle.undo_journal.specs.declared.edits.Edit.{Edit};
ghost use Rattle.undo_journal.specs.Edited.{edited};

use crease_model::Piece;
use plane_geometry::Segment;
use std::alloc::{AllocError, Global};

/// An edit of a list: behind so many elements that stay, one is put in, or the next one is taken out.
#[derive(Clone, Copy)]
pub struct Edit<T> {
    pub kept: usize,
    pub put: Option<T>,
}

/// What stands in ascending lists.
pub trait Element: Copy {
    /// Whether they are equal.
    fn same(&self, other: &Self) -> bool
        ensures { IsTrue result → self.now ≡ other.now };

    /// Whether it stands before another.
    fn is_before(&self, other: &Self) -> bool;
}

impl Element for Piece {
    fn same(&self, other: &Piece) -> bool {
        self.kind.same(other.kind) && self.segment.same(&other.segment)
    }

    fn is_before(&self, other: &Piece) -> bool {
        self.segment < other.segment
    }
}

impl Element for Segment {
    fn same(&self, other: &Segment) -> bool {
        self.cmp(other).is_eq()
    }

    fn is_before(&self, other: &Segment) -> bool {
        self < other
    }
}

// With how many equal elements both begin.
fn common<T: Element>(old: &[T], new: &[T]) -> usize
    ensures old { result ≤ length old.now }
    ensures new { result ≤ length new.now }
    ensures same { take result old.now ≡ take result new.now }
{
    let mut count = 0;
    while count < old.len() && count < new.len() && old[count].same(&new[count]) {
        count += 1;
    }
    count
}

// The first edit that takes one list to another, and what is left of both behind it.
struct Found<'a, T> {
    edit: Edit<T>,
    old: &'a [T],
    new: &'a [T],
}

fn first_edit<'a, T: Element>(old: &'a [T], new: &'a [T]) -> Option<Found<'a, T>>
    ensures none { IsNone result → old.now ≡ new.now }
    ensures edit { IfSome result (λ found. (more : List (Edit T)) → edited found.old.now more ≡ found.new.now
        → edited old.now (found.edit ∷ more) ≡ new.now) }
    ensures less { IfSome result (λ found. length found.old.now + length found.new.now
        < length old.now + length new.now) }
{
    let kept = common(old, new);
    let old = &old[kept..];
    let new = &new[kept..];
    match (old.split_first(), new.split_first()) {
        (None, None) => None,
        (Some((_, rest)), None) => Some(Found {
            edit: Edit { kept, put: None },
            old: rest,
            new,
        }),
        (None, Some((y, rest))) => Some(Found {
            edit: Edit {
                kept,
                put: Some(*y),
            },
            old,
            new: rest,
        }),
        (Some((x, old_rest)), Some((y, new_rest))) => {
            if x.is_before(y) {
                Some(Found {
                    edit: Edit { kept, put: None },
                    old: old_rest,
                    new,
                })
            } else {
                Some(Found {
                    edit: Edit {
                        kept,
                        put: Some(*y),
                    },
                    old,
                    new: new_rest,
                })
            }
        }
    }
}

/// The edits that take one list to another, in order.
pub fn edits_between<T: Element>(
    alloc: Global,
    old: &[T],
    new: &[T],
) -> Result<Vec<Edit<T>>, AllocError>
    ensures { IfOk result (λ edits. edited old.now edits.items ≡ new.now) }
{
    let mut edits = Vec::new(alloc);
    let mut before = old;
    let mut after = new;
    loop {
        match first_edit(before, after) {
            Some(Found { edit, old, new }) => {
                edits.push(edit)?;
                before = old;
                after = new;
            }
            None => return Ok(edits),
        }
    }
}

// All but the first element.
fn without_first<T>(list: &[T]) -> &[T]
    ensures { result.now ≡ drop 1 list.now }
{
    match list.split_first() {
        Some((_, rest)) => rest,
        None => list,
    }
}

// Appends what an edit keeps of a list, and what it puts in. What is left of the list stands behind the edit.
fn make_edit<'a, T: Copy>(
    new: &mut Vec<T>,
    rest: &'a [T],
    edit: &Edit<T>,
) -> Result<&'a [T], AllocError>
    ensures { IfOk result (λ left. (more : List (Edit T)) → new.new.items ++ edited left.now more
        ≡ new.old.items ++ edited rest.now (edit.now ∷ more)) }
{
    let (kept, behind) = rest.split_at(edit.kept.min(rest.len()));
    new.extend_from_slice(kept)?;
    match edit.put {
        Some(element) => {
            new.push(element)?;
            Ok(behind)
        }
        None => Ok(without_first(behind)),
    }
}

/// A list with these edits made.
pub fn with_edits<T: Copy>(
    alloc: Global,
    old: &[T],
    edits: &[Edit<T>],
) -> Result<Vec<T>, AllocError>
    ensures { IfOk result (λ new. new.items ≡ edited old.now edits.now) }
{
    let mut new = Vec::with_capacity(alloc, old.len())?;
    let mut rest = old;
    for edit in edits {
        rest = make_edit(&mut new, rest, edit)?;
    }
    new.extend_from_slice(rest)?;
    Ok(new)
}
