ghost use Rattle.std.specs.Prelude.{◌≡◌, ◌≤◌, IsTrue, IfOk, None, Some, MatchOption};
ghost use Rattle.std.specs.Arc.{arc_value};
ghost use Rattle.search_cursor.specs.Place.{search_place};
ghost use Rattle.order_search.specs.Search.{IsRight, IsCounted, IsPlaced};
ghost use Rattle.order_search.specs.Invariant.{IsConsistentWithin};

use crate::step::Step;
use crate::walking::walk;
use search_cursor::Position;
use sign_rules::{Order, Rules, Sign};
use std::alloc::{AllocError, Global};
use std::marker::Model;
use std::sync::Arc;

/// A search for the orders that begin with a prefix, from a position on.
#[derive(Drop)]
pub struct Search {
    rules: Arc<Rules>,
    prefix: Order,
    position: Position,
    found: bool,
}

impl Model for Search {
    ghost use Rattle.std.specs.Prelude.{if◌then◌else◌, Some, None};
    ghost use Rattle.std.specs.Arc.{arc_value};
    ghost use Rattle.search_cursor.specs.Place.{search_place};
    ghost use Rattle.order_search.specs.Search.{SearchView};
    ghost use Rattle.order_search.specs.Invariant.{IsSearch};

    ghost Value = { SearchView };

    ghost view = { λ s. record {
      rules = arc_value s.rules;
      prefix = s.prefix.list;
      place = search_place s.position;
      order = if s.found then Some s.position.signs.list else None;
    } };

    ghost invariant = { λ s. IsSearch (arc_value s.rules) s.prefix.list s.position.signs };
}

impl Search {
    /// A search that stands at the position. All the room that it needs is taken here.
    pub fn resume(
        alloc: Global,
        rules: Arc<Rules>,
        prefix: &[Sign],
        position: &Position,
    ) -> Result<Search, AllocError>
        requires { IsConsistentWithin (arc_value rules) prefix.now position.now.signs.list }
        ensures { IfOk result (λ s. s ≡ record {
          rules = arc_value rules;
          prefix = prefix.now;
          place = search_place position.now;
          order = None;
        }) }
    {
        let room = rules.pairs() as usize;
        let signs = Order::with_room(alloc, position.signs.as_slice(), room)?;
        Ok(Search {
            rules,
            prefix: Order::of(prefix.to_vec(alloc)?),
            position: Position {
                signs,
                past: position.past,
            },
            found: false,
        })
    }

    /// Goes on to the next order, to an open list after `budget` others, or to the end. It takes no memory.
    pub fn advance(&mut self, budget: u64) -> Step
        requires { 1 ≤ budget }
        ensures right { IsRight self.old budget result self.new }
        ensures counted { IsCounted self.old budget result self.new }
        ensures placed { IsPlaced self.old result self.new }
        ensures rules { self.new.rules ≡ self.old.rules }
        ensures prefix { self.new.prefix ≡ self.old.prefix }
    {
        let step = walk(
            &self.rules,
            self.prefix.as_slice(),
            &mut self.position,
            budget,
        );
        self.found = matches!(step, Step::Found);
        step
    }

    /// The order that was found, where the last answer was Found.
    pub fn order(&self) -> Option<&[Sign]>
        ensures { MatchOption result (self.now.order ≡ None) (λ o. self.now.order ≡ Some o.now) }
    {
        if self.found {
            Some(self.position.signs.as_slice())
        } else {
            None
        }
    }

    /// Where the search stands.
    pub fn position(&self) -> &Position
        ensures place { search_place result.now ≡ self.now.place }
        ensures within { IsConsistentWithin self.now.rules self.now.prefix result.now.signs.list }
    {
        &self.position
    }
}
