ghost use Rattle.std.specs.Prelude.{◌≡◌, [], ◌∷◌, ◌++◌, ◌<◌, ◌≤◌, length, IfOk, IsSome, IsTrue, ◌↔◌};
ghost use Rattle.std.specs.Option.{option_to_list};
ghost use Rattle.sign_rules.specs.Signs.{bare_order};

use std::alloc::{AllocError, Global};
use std::marker::Model;

/// The sign of a pair of faces i < j. Over comes before Under.
#[derive(Clone, Copy, Debug, PartialEq, Eq, PartialOrd, Ord, Hash)]
pub enum Sign {
    /// i is above j, written `+`.
    Over,
    /// i is below j, written `-`.
    Under,
}

/// A list of signs, which gives the first pairs theirs, in the order of the pairs.
#[derive(Drop)]
pub struct Order {
    signs: Vec<Sign>,
    room: usize,
}

impl Model for Order {
    ghost use Rattle.std.specs.Prelude.{vec_capacity, ◌≤◌};
    ghost use Rattle.sign_rules.specs.Signs.{OrderView};

    ghost Value = { OrderView };

    ghost view = { λ o. record { list = o.signs.items; room = o.room } };

    ghost invariant = { λ o. o.room ≤ vec_capacity o.signs };
}

impl Order {
    /// These signs.
    pub fn of(signs: Vec<Sign>) -> Order
        ensures { result ≡ bare_order signs.items }
    {
        Order { signs, room: 0 }
    }

    /// A copy of these signs that can grow to `room` signs without taking memory.
    pub fn with_room(alloc: Global, signs: &[Sign], room: usize) -> Result<Order, AllocError>
        requires { length signs.now ≤ room }
        ensures { IfOk result (λ o. o ≡ record { list = signs.now; room = room }) }
    {
        let mut copied = Vec::with_capacity(alloc, room)?;
        copied.extend_from_slice(signs)?;
        Ok(Order {
            signs: copied,
            room,
        })
    }

    /// The signs.
    pub fn as_slice(&self) -> &[Sign]
        ensures { result.now ≡ self.now.list }
    {
        self.signs.as_slice()
    }

    /// Whether the signs are the same.
    pub fn same(&self, other: &Order) -> bool
        ensures { IsTrue result ↔ (self.now.list ≡ other.now.list) }
    {
        self.signs.as_slice() == other.signs.as_slice()
    }

    /// A list of the same signs, with no room promised.
    pub fn copy(&self) -> Result<Order, AllocError>
        ensures { IfOk result (λ o. o ≡ bare_order self.now.list) }
    {
        Ok(Order {
            signs: self.signs.clone()?,
            room: 0,
        })
    }

    /// Puts a sign behind the others, in room that was taken before.
    pub fn push(&mut self, sign: Sign)
        requires { length self.old.list < self.old.room }
        ensures { self.new ≡ record self.old { list = self.old.list ++ sign ∷ [] } }
    {
        self.signs.push_reserved(sign);
    }

    /// Takes the last sign away, if there is one. The room stays.
    pub fn pop(&mut self) -> Option<Sign>
        ensures signs { self.old.list ≡ self.new.list ++ option_to_list result }
        ensures some { IsSome result ↔ (0 < length self.old.list) }
        ensures room { self.new.room ≡ self.old.room }
    {
        self.signs.pop()
    }
}
