// The operation "Building rules".
ghost use Rattle.std.specs.Prelude.{◌≡◌};
ghost use Rattle.rules.specs.Building.{built_rules};

use crate::numbering::Rule;
use crate::{numbering, stages};
use errors::Refusal;
use fragments::pairs::Pairs;

// How many rules are left, and the one that was asked for.
#[derive(Clone, Copy)]
pub struct Built {
    pub count: usize,
    pub rule: Option<Rule>,
}

// Building rules, with the number of a rule that is asked for. Facts are not looked at.
pub fn build_rules(pairs: &Pairs, number: usize) -> Result<Built, Refusal>
    ensures { result ≡ built_rules pairs.now number }
{
    stages::check_rules(pairs, None)?;
    Ok(Built {
        count: numbering::count_rules(pairs),
        rule: numbering::rule_at(pairs, number),
    })
}
