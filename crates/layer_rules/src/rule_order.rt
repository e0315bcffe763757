//! Rules in order, each once.

ghost use Rattle.std.specs.Prelude.{◌≡◌, ◌↔◌, ◌≤◌, length};
ghost use Rattle.std.specs.List.{Contains};
ghost use Rattle.std.specs.List.Sorted.{IsStrictlySortedBy};
ghost use Rattle.sign_rules.specs.declared.rule.Rule.{Rule};
ghost use Rattle.layer_rules.specs.RuleOrder.{key_of, compare_rules};

use sign_rules::{Rule, Sign};

/// What rules are ordered by: the form, then the pairs that the rule names, then its sign or parity. A pair that a form
/// doesn't have is 0.
#[derive(Clone, Copy, Debug, PartialEq, Eq, PartialOrd, Ord)]
pub(crate) struct RuleKey {
    pub form: u8,
    pub p: u32,
    pub q: u32,
    pub r: u32,
    pub s: u32,
    pub last: bool,
}

/// The key of a rule.
fn key_of(rule: &Rule) -> RuleKey
    ensures { result ≡ key_of rule.now }
{
    match *rule {
        Rule::Fixed { p, sign } => key(0, p, 0, 0, 0, sign != Sign::Over),
        Rule::Equal { p, q, same } => key(1, p, q, 0, 0, same),
        Rule::Even { p, q, r, s, odd } => key(2, p, q, r, s, odd),
        Rule::NotCyclic { ij, jk, ik } => key(3, ij, jk, ik, 0, false),
    }
}

/// The key of these parts.
fn key(form: u8, p: u32, q: u32, r: u32, s: u32, last: bool) -> RuleKey
    ensures { result ≡ record { form = form; p = p; q = q; r = r; s = s; last = last } }
{
    RuleKey {
        form,
        p,
        q,
        r,
        s,
        last,
    }
}

/// The rules in order, each once.
pub(crate) fn in_order(mut rules: Vec<Rule>) -> Vec<Rule>
    ensures same { (rule : Rule) → Contains result.items rule ↔ Contains rules.items rule }
    ensures order { IsStrictlySortedBy compare_rules result.items }
    ensures few { length result.items ≤ length rules.items }
{
    rules.sort_unstable_by_key(|rule| key_of(rule));
    rules.dedup();
    rules
}
