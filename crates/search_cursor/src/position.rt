ghost use Rattle.std.specs.Prelude.{◌≡◌, IsTrue, ◌↔◌, IfOk, false};
ghost use Rattle.sign_rules.specs.Signs.{bare_order};
ghost use Rattle.search_cursor.specs.Place.{search_place, is_earlier, stands_before};
ghost use Rattle.search_cursor.specs.Cases.{IsBefore};

use sign_rules::{Order, Sign};
use std::alloc::{AllocError, Global};

/// Where a search stands: before all sign lists that begin with the signs, or, `past`, after all of them.
#[derive(Drop)]
pub struct Position {
    pub signs: Order,
    pub past: bool,
}

impl Position {
    /// Whether this position stands before the other one.
    pub fn before(&self, other: &Position) -> bool
        ensures value { result ≡ is_earlier (search_place self.now) (search_place other.now) }
        ensures cases { IsTrue result ↔ IsBefore (search_place self.now) (search_place other.now) }
    {
        stands_before(
            self.signs.as_slice(),
            self.past,
            other.signs.as_slice(),
            other.past,
        )
    }

    /// Whether the positions are the same.
    pub fn same(&self, other: &Position) -> bool
        ensures { IsTrue result ↔ (search_place self.now ≡ search_place other.now) }
    {
        self.past == other.past && self.signs.same(&other.signs)
    }

    /// An equal position.
    pub fn copy(&self) -> Result<Position, AllocError>
        ensures { IfOk result (λ p. search_place p ≡ search_place self.now) }
    {
        Ok(Position {
            signs: self.signs.copy()?,
            past: self.past,
        })
    }

    /// The position before all that begins with the prefix.
    pub fn start(alloc: Global, prefix: &[Sign]) -> Result<Position, AllocError>
        ensures { IfOk result (λ p. search_place p ≡ record { signs = prefix.now; past = false }) }
    {
        Ok(Position {
            signs: Order::of(prefix.to_vec(alloc)?),
            past: false,
        })
    }
}

fn stands_before(first: &[Sign], past: bool, second: &[Sign], other_past: bool) -> bool
    ensures { result ≡ stands_before first.now past second.now other_past }
{
    for place in 0..first.len().min(second.len()) {
        if first[place] != second[place] {
            return first[place] == Sign::Over;
        }
    }
    if first.len() < second.len() {
        !past
    } else if second.len() < first.len() {
        other_past
    } else {
        !past && other_past
    }
}
