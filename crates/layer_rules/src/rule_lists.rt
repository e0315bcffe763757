//! Lists of rules, as they grow.

ghost use Rattle.std.specs.Prelude.{◌≡◌, ◌++◌, OnOk};
ghost use Rattle.std.specs.Option.{option_to_list};

use sign_rules::Rule;
use std::alloc::AllocError;

/// Puts the rule behind the others, if there is one.
pub(crate) fn push_rule(rules: &mut Vec<Rule>, found: Option<Rule>) -> Result<(), AllocError>
    ensures { OnOk result (rules.new.items ≡ rules.old.items ++ option_to_list found) }
{
    if let Some(rule) = found {
        rules.push(rule)?;
    }
    Ok(())
}
