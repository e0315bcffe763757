//! Cycles of next places: the ways round faces.

ghost use Rattle.std.specs.Prelude.{◌≡◌, ℕ, Bool, ◌||◌, ◌∷◌, ◌++◌, ◌<◌, length, nat_eq, slice_index_or, IfOk, OnOk};
ghost use Rattle.std.specs.List.{list_any};
ghost use Rattle.face_builder.specs.Cycle.{ArePermuted, next_of, is_leader, rest_from, cycle_from, leaders_from};

use std::alloc::{AllocError, Global};

/// The place after one; 0 past the end.
pub fn next_of(nexts: &[u32], i: u32) -> u32
    ensures { result ≡ next_of nexts.now i }
{
    match nexts.get(i as usize) {
        Some(next) => *next,
        None => 0,
    }
}

// Appends the walk from a place up to the first one.
fn push_rest(cycle: &mut Vec<u32>, nexts: &[u32], first: u32) -> Result<(), AllocError>
    ensures { OnOk result (cycle.new.items ≡ cycle.old.items
        ++ rest_from nexts.now first nexts.now (next_of nexts.now first)) }
{
    let mut i = next_of(nexts, first);
    for step in nexts {
        let _step = *step;
        if i == first {
            return Ok(());
        }
        cycle.push(i)?;
        i = next_of(nexts, i);
    }
    Ok(())
}

/// The cycle that a place leads.
#[tactic(auto, unfolding(crate::specs::Cycle::cycle_from))]
pub fn cycle_from(alloc: Global, nexts: &[u32], first: u32) -> Result<Vec<u32>, AllocError>
    ensures { IfOk result (λ cycle. cycle.items ≡ cycle_from nexts.now first) }
{
    let mut cycle = Vec::new(alloc);
    cycle.push(first)?;
    push_rest(&mut cycle, nexts, first)?;
    Ok(cycle)
}

// Marks a place, if there is one.
fn put_mark(marks: &mut Vec<bool>, place: u32)
    ensures count { length marks.new.items ≡ length marks.old.items }
    ensures value { (k : ℕ) (d : Bool) → k < length marks.old.items
        → slice_index_or marks.new.items k d ≡ (slice_index_or marks.old.items k d || nat_eq k place) }
{
    if (place as usize) < marks.len() {
        marks[place as usize] = true;
    }
}

// Marks the walk from a place up to the first one.
fn put_rest(marks: &mut Vec<bool>, nexts: &[u32], first: u32)
    ensures count { length marks.new.items ≡ length marks.old.items }
    ensures value { (k : ℕ) (d : Bool) → k < length marks.old.items
        → slice_index_or marks.new.items k d
        ≡ (slice_index_or marks.old.items k d
        || list_any (nat_eq k) (rest_from nexts.now first nexts.now (next_of nexts.now first))) }
{
    let mut i = next_of(nexts, first);
    for step in nexts {
        let _step = *step;
        if i == first {
            return;
        }
        put_mark(marks, i);
        i = next_of(nexts, i);
    }
}

// Marks the cycle that a place leads.
#[tactic(auto, unfolding(crate::specs::Cycle::cycle_from))]
fn put_cycle(marks: &mut Vec<bool>, nexts: &[u32], first: u32)
    ensures count { length marks.new.items ≡ length marks.old.items }
    ensures value { (k : ℕ) (d : Bool) → k < length marks.old.items
        → slice_index_or marks.new.items k d
        ≡ (slice_index_or marks.old.items k d || list_any (nat_eq k) (cycle_from nexts.now first)) }
{
    put_mark(marks, first);
    put_rest(marks, nexts, first);
}

/// The least places of the cycles, ascending: the places that no earlier one's cycle has.
pub fn leaders(alloc: Global, nexts: &[u32]) -> Result<Vec<u32>, AllocError>
    requires bound { length nexts.now < 4294967295 }
    requires permuted { ArePermuted nexts.now }
    ensures { IfOk result (λ leaders. leaders.items ≡ leaders_from nexts.now 0 nexts.now) }
{
    let mut marks = vec![in alloc; false; nexts.len()]?;
    let mut leaders = Vec::new(alloc);
    for (i, next) in nexts.iter().enumerate() {
        let _next = *next;
        if !marks[i] {
            leaders.push(i as u32)?;
            put_cycle(&mut marks, nexts, i as u32);
        }
    }
    Ok(leaders)
}
