//! Loading lines.

ghost use Rattle.std.specs.Prelude.{◌≡◌, Contains, IsTrue, Ok, Err, IfOk, IfErr, IfSome, IsSome, IsNone};
ghost use Rattle.std.specs.Prelude.{drop};
ghost use Rattle.crease_model.specs.View.{empty_on};
ghost use Rattle.crease_store.specs.Adding.{add_of};
ghost use Rattle.crease_store.specs.AddRefusals.{HasSegment};
ghost use Rattle.crease_store.specs.Answer.{IsAnswer, refusal_of};
ghost use Rattle.crease_store.specs.Loading.{load_of, load_from, after_line, IsLoadAnswer, IsLoaded};
ghost use Rattle.crease_store.specs.Loading.{IsFirstRefused};

use crate::adding::add_between;
use crate::faults::StoreFault;
use crease_model::{Kind, Pattern};
use plane_geometry::{Point, Segment};
use std::alloc::{AllocError, Global};
use thiserror::Error;

/// A line of a block to load, with its number in the block, from 1.
#[derive(Clone, Copy, Debug, PartialEq, Eq)]
pub struct LoadLine {
    pub number: u32,
    pub kind: Kind,
    pub from: Point,
    pub to: Point,
}

/// The first line that is refused, and why. Without memory the number is 0.
#[derive(Clone, Copy, Debug, PartialEq, Eq, Error)]
#[error("line {number}: {fault}")]
pub struct LoadStoreFault {
    pub number: u32,
    pub fault: StoreFault,
}

impl From<AllocError> for LoadStoreFault {
    ghost use Rattle.std.specs.Prelude.{◌≡◌};
    ghost use Rattle.crease_store.specs.declared.faults.StoreFault.TheVariants.{Memory};

    ghost from_gives = { λ _ e. e ≡ record { number = 0; fault = Memory } };

    fn from(_e: AllocError) -> LoadStoreFault {
        LoadStoreFault {
            number: 0,
            fault: StoreFault::Memory,
        }
    }
}

// Without memory the number is 0.
fn fault_at(number: u32, fault: StoreFault) -> LoadStoreFault
    ensures number { IsSome (refusal_of fault) → result.number ≡ number }
    ensures memory { IsNone (refusal_of fault) → result.number ≡ 0 }
    ensures fault { result.fault ≡ fault }
{
    match fault.refusal() {
        Some(_) => LoadStoreFault { number, fault },
        None => LoadStoreFault { number: 0, fault },
    }
}

fn add_loaded(alloc: Global, pattern: Pattern, line: &LoadLine) -> Result<Pattern, LoadStoreFault>
    ensures { IsLoadAnswer result
        (after_line line.now.number (add_of pattern line.now.kind line.now.from line.now.to)
        (λ new. Ok new)) }
{
    match add_between(alloc, pattern, line.kind, &line.from, &line.to) {
        Ok(new) => Ok(new),
        Err(fault) => Err(fault_at(line.number, fault)),
    }
}

// The lines added to the sheet of a pattern, one after another.
#[tactic(auto, unfolding(crate::specs::Loading::load_of))]
fn load_lines(
    alloc: Global,
    pattern: &Pattern,
    lines: &[LoadLine],
) -> Result<Pattern, LoadStoreFault>
    ensures { IsLoadAnswer result (load_of pattern.now lines.now) }
{
    let mut loaded = Pattern::empty(pattern.sheet().copy()?);
    for line in lines {
        loaded = add_loaded(alloc, loaded, line)?;
    }
    Ok(loaded)
}

/// The sheet of a pattern with these lines, each added in order.
pub fn load(alloc: Global, pattern: &Pattern, lines: &[LoadLine]) -> Result<Pattern, LoadStoreFault>
    ensures loaded { IfOk result (λ new. IsLoaded (empty_on pattern.now.corners) lines.now new) }
    ensures refused { IfErr result (λ e. IfSome (refusal_of e.fault)
        (λ refusal. IsFirstRefused (empty_on pattern.now.corners) lines.now e.number refusal)) }
    ensures exact { IsLoadAnswer result (load_of pattern.now lines.now) }
{
    // tells the rules that the sheet keeps
    let _ = pattern.sheet();
    load_lines(alloc, pattern, lines)
}
