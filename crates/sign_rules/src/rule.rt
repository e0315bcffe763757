ghost use Rattle.std.specs.Prelude.{◌≡◌, ◌+◌, ◌<◌, ◌≤◌, length, IsTrue, ◌↔◌};
ghost use Rattle.sign_rules.specs.Signs.{over_at};
ghost use Rattle.sign_rules.specs.Rule.{is_met, last_pair};
ghost use Rattle.sign_rules.specs.Rules.{is_decided, is_broken};

use crate::sign::Sign;

/// What the signs of some pairs have to meet. Pairs are numbered from 0.
#[derive(Clone, Copy, Debug, PartialEq, Eq)]
pub enum Rule {
    /// The pair has this sign.
    Fixed {
        p: u32,
        sign: Sign,
    },
    /// The two pairs have one sign where `same`, else different ones.
    Equal {
        p: u32,
        q: u32,
        same: bool,
    },
    /// The number of Over among the four is odd exactly where `odd`.
    Even {
        p: u32,
        q: u32,
        r: u32,
        s: u32,
        odd: bool,
    },
    /// Not Over, Over, Under and not Under, Under, Over: three faces i < j < k are not above each other in a circle.
    NotCyclic {
        ij: u32,
        jk: u32,
        ik: u32,
    },
}

impl Rule {
    /// The greatest pair that the rule names: its sign decides the rule.
    pub fn last_pair(&self) -> u32
        ensures { result ≡ last_pair self.now }
    {
        match *self {
            Rule::Fixed { p, .. } => p,
            Rule::Equal { p, q, .. } => p.max(q),
            Rule::Even { p, q, r, s, .. } => p.max(q).max(r.max(s)),
            Rule::NotCyclic { ij, jk, ik } => ij.max(jk).max(ik),
        }
    }

    /// Whether the list has signs for all pairs that the rule names, and does not meet it.
    pub fn is_broken(&self, signs: &[Sign]) -> bool
        ensures { result ≡ is_broken signs.now self.now }
    {
        (self.last_pair() as usize) < signs.len() && !self.is_met(signs)
    }

    pub(crate) fn is_met(&self, signs: &[Sign]) -> bool
        requires { IsTrue (is_decided (length signs.now) self.now) }
        ensures { result ≡ is_met signs.now self.now }
    {
        match *self {
            Rule::Fixed { p, sign } => is_over(signs, p) == (sign == Sign::Over),
            Rule::Equal { p, q, same } => (is_over(signs, p) == is_over(signs, q)) == same,
            Rule::Even { p, q, r, s, odd } => {
                let first = is_over(signs, p) != is_over(signs, q);
                let second = is_over(signs, r) != is_over(signs, s);
                (first != second) == odd
            }
            Rule::NotCyclic { ij, jk, ik } => {
                let first = is_over(signs, ij);
                first != is_over(signs, jk) || first == is_over(signs, ik)
            }
        }
    }
}

fn is_over(signs: &[Sign], pair: u32) -> bool
    requires { pair < length signs.now }
    ensures { result ≡ over_at signs.now pair }
{
    signs[pair as usize] == Sign::Over
}
