// The operations on rules.
ghost use Rattle.std.specs.Prelude.{◌≡◌, length};
ghost use Rattle.fragments.specs.Pairs.{pairs_of};
ghost use Rattle.checks.specs.Given.{rules_of};
ghost use Rattle.resolving.specs.Resolving.{resolved_element};
ghost use Rattle.rules.specs.Building.{built_rules};
ghost use Rattle.ssr.specs.Rules.{rules_built, element_resolved};

use ssr::rule_answers::{BuiltRules, ResolvedElement};
use ssr::rule_exports;

// Building rules, with the number of a rule that is asked for.
#[unsafe(no_mangle)]
pub extern "C" fn ssr_build_rules(
    directory: &[u32],
    words: &[u32],
    bytes: &[u8],
    rule: usize,
) -> BuiltRules
    ensures { result ≡ rules_built (built_rules (pairs_of directory.now words.now bytes.now) rule) }
{
    rule_exports::ssr_build_rules(directory, words, bytes, rule)
}

// Resolving, with the number of a rule, a side and an element that are asked for.
#[unsafe(no_mangle)]
pub extern "C" fn ssr_resolve(
    directory: &[u32],
    words: &[u32],
    bytes: &[u8],
    fact_text: &[u8],
    rule: usize,
    side: u32,
    element: usize,
) -> ResolvedElement
    ensures { result ≡ element_resolved (resolved_element (rules_of directory.now words.now bytes.now (length fact_text.now)) rule side element) }
{
    rule_exports::ssr_resolve(directory, words, bytes, fact_text, rule, side, element)
}
