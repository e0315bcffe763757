//! The tickets of a session.

ghost use Rattle.std.specs.Prelude.{◌≡◌, ◌↔◌, [], IfSome, None, false, ◌==◌, filter};
ghost use Rattle.std.specs.List.{list_any};
ghost use Rattle.oriedita_cli.specs.Tickets.{IsListed, first_number, is_for, is_other};

use std::alloc::Global;

/// A ticket that is held, and the task that it is for: the one of a piece of a job with this budget.
#[derive(Clone, Copy, Drop)]
pub struct HeldTicket {
    pub number: u32,
    pub job: u32,
    pub piece: u32,
    pub budget: u64,
}

impl HeldTicket {
    fn is_for(&self, job: u32, piece: u32, budget: u64) -> bool
        ensures { result ≡ is_for job piece budget self.now }
    {
        self.job == job && self.piece == piece && self.budget == budget
    }
}

/// The tickets that a session holds, and how many it was given.
#[derive(Drop)]
pub struct Tickets {
    pub list: Vec<HeldTicket>,
    pub given: u32,
}

impl Tickets {
    pub fn new(alloc: Global) -> Tickets
        ensures list { result.list.items ≡ [] }
        ensures given { result.given ≡ 0 }
    {
        Tickets {
            list: Vec::new(alloc),
            given: 0,
        }
    }

    fn first_number(&self, job: u32, piece: u32, budget: u64) -> Option<u32>
        ensures { result ≡ first_number job piece budget self.now.list.items }
    {
        self.list
            .iter()
            .find(|ticket| ticket.is_for(job, piece, budget))
            .map(|ticket| ticket.number)
    }

    /// The first ticket for the task of a piece with this budget, if one is held.
    pub fn find(&self, job: u32, piece: u32, budget: u64) -> Option<u32>
        ensures first { result ≡ first_number job piece budget self.now.list.items }
        ensures none { (result ≡ None) ↔ (list_any (is_for job piece budget) self.now.list.items ≡ false) }
        ensures listed { IfSome result (λ number. IsListed number job self.now.list.items) }
    {
        self.first_number(job, piece, budget)
    }

    /// The ticket is held no more.
    pub fn forget(&mut self, number: u32)
        ensures list { self.new.list.items ≡ filter (is_other number) self.old.list.items }
        ensures given { self.new.given ≡ self.old.given }
    {
        self.list.retain(
            |ticket: &HeldTicket| -> bool
                ensures { result ≡ is_other number ticket.now }
            { ticket.number != number },
        );
    }
}
