ghost use Rattle.std.specs.Prelude.{◌≡◌, ◌<◌, ◌≤◌, [], ◌∷◌, ◌++◌, List, length, IsTrue, if◌then◌else◌};
ghost use Rattle.sign_rules.specs.declared.sign.Sign.{Sign};
ghost use Rattle.sign_rules.specs.Rules.{is_consistent};
ghost use Rattle.search_cursor.specs.Place.{search_place};
ghost use Rattle.order_search.specs.Invariant.{IsSearch};
ghost use Rattle.order_search.specs.Walking.{before, descended, climbed, IsSearchWalk};

use crate::step::Step;
use search_cursor::Position;
use sign_rules::{Order, Rules, Sign};

/// Walks on from the position to the next order, to an open list after `budget` others, or to the end of what begins with
/// the prefix. It takes no memory.
pub(crate) fn walk(rules: &Rules, prefix: &[Sign], position: &mut Position, budget: u64) -> Step
    requires { IsSearch rules.now prefix.now position.old.signs }
    ensures search { IsSearch rules.now prefix.now position.new.signs }
    ensures walk { IsSearchWalk rules.now prefix.now budget (search_place position.old) result (search_place position.new) }
{
    let mut units = 0;
    loop {
        let length = position.signs.as_slice().len();
        if position.past {
            if length <= prefix.len() {
                return Step::Done;
            }
            climb(rules, position);
        } else if length == rules.pairs() as usize {
            position.past = true;
            return Step::Found;
        } else if units == budget {
            return Step::Paused;
        } else {
            units += 1;
            descend(rules, position);
        }
    }
}

/// Goes on from before an open list.
fn descend(rules: &Rules, position: &mut Position)
    requires consistent { IsTrue (is_consistent rules.now position.old.signs.list) }
    requires shorter { length position.old.signs.list < rules.now.pairs }
    requires room { rules.now.pairs ≤ position.old.signs.room }
    ensures place { search_place position.new ≡ descended rules.now position.old.signs.list }
    ensures room { position.new.signs.room ≡ position.old.signs.room }
{
    let fits = put(rules, &mut position.signs, Sign::Over)
        || put(rules, &mut position.signs, Sign::Under);
    position.past = !fits;
}

/// Goes on from after all that begins with the signs, where there are some.
fn climb(rules: &Rules, position: &mut Position)
    requires consistent { IsTrue (is_consistent rules.now position.old.signs.list) }
    requires some { 0 < length position.old.signs.list }
    requires past { IsTrue position.old.past }
    requires room { rules.now.pairs ≤ position.old.signs.room }
    ensures place { (front : List Sign) (sign : Sign) → position.old.signs.list ≡ front ++ sign ∷ []
        → search_place position.new ≡ climbed rules.now front sign }
    ensures room { position.new.signs.room ≡ position.old.signs.room }
{
    if let Some(Sign::Over) = position.signs.pop() {
        let fits = put(rules, &mut position.signs, Sign::Under);
        position.past = !fits;
    }
}

/// Puts the sign behind the others where the longer list is consistent.
fn put(rules: &Rules, signs: &mut Order, sign: Sign) -> bool
    requires consistent { IsTrue (is_consistent rules.now signs.old.list) }
    requires shorter { length signs.old.list < rules.now.pairs }
    requires room { rules.now.pairs ≤ signs.old.room }
    ensures fits { result ≡ is_consistent rules.now (signs.old.list ++ sign ∷ []) }
    ensures list { signs.new.list ≡ (if result then signs.old.list ++ sign ∷ [] else signs.old.list) }
    ensures room { signs.new.room ≡ signs.old.room }
{
    signs.push(sign);
    let fits = rules.last_sign_fits(signs.as_slice());
    if !fits {
        let _ = signs.pop();
    }
    fits
}
