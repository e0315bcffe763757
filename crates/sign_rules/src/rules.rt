ghost use Rattle.std.specs.Prelude.{◌≡◌, ◌++◌, [], ◌∷◌, ◌<◌, ◌≤◌, ◌^◌, ◌-◌, List, length, not, IfOk, IsNone, IsTrue, ◌↔◌, slice_index};
ghost use Rattle.std.specs.List.{list_any};
ghost use Rattle.sign_rules.specs.declared.sign.Sign.{Sign};
ghost use Rattle.sign_rules.specs.Rules.{are_rules_on, is_broken_at_last, broken_rule, is_consistent};
ghost use Rattle.sign_rules.specs.RuleIndex.{IsIndex};

use crate::rule::Rule;
use crate::sign::Sign;
use std::alloc::{AllocError, Global};
use std::marker::Model;

/// A list of rules on a number of pairs.
#[derive(Drop)]
pub struct Rules {
    pairs: u32,
    rules: Vec<Rule>,
    // For each pair one more than the number of the last rule that it decides, or 0.
    latest: Vec<u32>,
    // For each rule the same of the rules before it that its greatest pair decides.
    earlier: Vec<u32>,
}

impl Model for Rules {
    ghost use Rattle.std.specs.Prelude.{◌≡◌, ◌<◌, length, IsTrue};
    ghost use Rattle.sign_rules.specs.Rules.{RulesView, are_rules_on};
    ghost use Rattle.sign_rules.specs.RuleIndex.{IsIndex};

    ghost Value = { RulesView };

    ghost view = { λ r. record { pairs = r.pairs; rules = r.rules.items } };

    ghost invariant = { λ r.
        IsTrue (are_rules_on r.pairs r.rules.items)
        × (length r.rules.items < 4294967295)
        × IsIndex r.pairs (length r.rules.items) r.rules.items r.latest.items r.earlier.items };
}

impl Rules {
    /// These rules, numbered by their places from 0.
    pub fn new(alloc: Global, pairs: u32, rules: Vec<Rule>) -> Result<Rules, AllocError>
        requires rules { IsTrue (are_rules_on pairs rules.items) }
        requires numbers { length rules.items < 4294967295 }
        ensures { IfOk result (λ r. r ≡ record { pairs = pairs; rules = rules.items }) }
    {
        let mut latest = vec![in alloc; 0u32; pairs as usize]?;
        let mut earlier = Vec::with_capacity(alloc, rules.len())?;
        for (number, rule) in rules.iter().enumerate() {
            let last = rule.last_pair() as usize;
            earlier.push(latest[last])?;
            latest[last] = number as u32 + 1;
        }
        Ok(Rules {
            pairs,
            rules,
            latest,
            earlier,
        })
    }

    /// The number of pairs.
    pub fn pairs(&self) -> u32
        ensures { result ≡ self.now.pairs }
    {
        self.pairs
    }

    /// The number of rules.
    pub fn count(&self) -> u32
        ensures { result ≡ length self.now.rules }
    {
        self.rules.len() as u32
    }

    /// The rules in their order.
    pub fn as_slice(&self) -> &[Rule]
        ensures value { result.now ≡ self.now.rules }
        ensures rules { IsTrue (are_rules_on self.now.pairs self.now.rules) }
        ensures numbers { length self.now.rules < 4294967295 }
    {
        self.rules.as_slice()
    }

    /// Whether the numbers of pairs and the lists of rules are equal.
    pub fn same(&self, other: &Rules) -> bool
        ensures { IsTrue result ↔ (self.now ≡ other.now) }
    {
        self.pairs == other.pairs && self.rules.as_slice() == other.rules.as_slice()
    }

    /// The least number of a rule all of whose pairs the list decides and which is broken. It looks at each rule up to
    /// that one.
    pub fn breaks(&self, signs: &[Sign]) -> Option<u32>
        requires { length signs.now ≤ self.now.pairs }
        ensures value { result ≡ broken_rule self.now signs.now }
        ensures none { IsNone result ↔ IsTrue (is_consistent self.now signs.now) }
    {
        for (number, rule) in self.rules.iter().enumerate() {
            if rule.is_broken(signs) {
                return Some(number as u32);
            }
        }
        None
    }

    /// Whether the list breaks no rule that its last sign decides. It looks at those rules alone.
    pub fn last_sign_fits(&self, signs: &[Sign]) -> bool
        requires some { 0 < length signs.now }
        requires within { length signs.now ≤ self.now.pairs }
        ensures value { result ≡ not (list_any (is_broken_at_last signs.now) self.now.rules) }

        // Behind a consistent list it tells whether the longer list is consistent.
        ensures step { (front : List Sign) (sign : Sign) → signs.now ≡ front ++ sign ∷ []
            → IsTrue (is_consistent self.now front) → result ≡ is_consistent self.now signs.now }
    {
        let mut next = self.latest[signs.len() - 1];
        while next > 0 {
            let number = next as usize - 1;
            if !self.rules[number].is_met(signs) {
                return false;
            }
            next = self.earlier[number];
        }
        true
    }
}
