ghost use Rattle.std.specs.Prelude.{◌≡◌, ◌<◌, ◌≤◌, ◌++◌, [], ◌∷◌, length, map, IfOk, IsTrue, if◌then◌else◌};
ghost use Rattle.sign_rules.specs.Signs.{bare_order};
ghost use Rattle.sign_rules.specs.Rules.{is_consistent};
ghost use Rattle.worker_split.specs.Pieces.{pieces_of};

use sign_rules::{Order, Rules, Sign};
use std::alloc::{AllocError, Global};

/// The prefixes that part the search into at most `most` pieces. With one piece it is the longest list up to which each
/// length has just one consistent list, and there is none where some length has none.
pub fn pieces(alloc: Global, rules: &Rules, most: u32) -> Result<Vec<Order>, AllocError>
    requires { most ≡ 1 }
    ensures { IfOk result (λ orders. orders.items ≡ map bare_order (pieces_of rules.now most)) }
{
    let mut order = Order::with_room(alloc, &[], rules.pairs() as usize)?;
    let mut pieces = Vec::with_capacity(alloc, 1)?;
    if lengthened(rules, &mut order) {
        pieces.push(order.copy()?)?;
    }
    Ok(pieces)
}

/// Puts signs behind the empty order as long as each is the only one that is consistent there. False where it comes to a
/// place at which none is.
fn lengthened(rules: &Rules, order: &mut Order) -> bool
    requires empty { order.old.list ≡ [] }
    requires room { rules.now.pairs ≤ order.old.room }
    ensures { pieces_of rules.now 1 ≡ (if result then order.new.list ∷ [] else []) }
{
    while order.as_slice().len() < rules.pairs() as usize {
        let over = fits(rules, order, Sign::Over);
        let under = fits(rules, order, Sign::Under);
        if over == under {
            return over;
        }
        order.push(if over { Sign::Over } else { Sign::Under });
    }
    true
}

/// Whether the sign can stand behind a consistent list.
fn fits(rules: &Rules, order: &mut Order, sign: Sign) -> bool
    requires consistent { IsTrue (is_consistent rules.now order.old.list) }
    requires shorter { length order.old.list < rules.now.pairs }
    requires room { rules.now.pairs ≤ order.old.room }
    ensures fits { result ≡ is_consistent rules.now (order.old.list ++ sign ∷ []) }
    ensures list { order.new.list ≡ order.old.list }
    ensures room { order.new.room ≡ order.old.room }
{
    order.push(sign);
    let fits = rules.last_sign_fits(order.as_slice());
    let _ = order.pop();
    fits
}
