// Resolving: what an element of a rule is, once the paths of all rules are resolved.
#![tactic(auto)]

ghost use Rattle.std.specs.Prelude.{◌≡◌, ◌≤◌};
ghost use Rattle.rule_paths.specs.Needs.{Roomy};
ghost use Rattle.resolving.specs.Resolving.{element_of, in_rule, in_rules, resolved_element};

use checks::Rules;
use errors::Refusal;
use facts::Call;
use paths::Resolved;
use rule_paths::tables::{ALL, FEW};
use rule_paths::{ResolvedRule, ResolvedRules, Tables, tables};
use rules::stages;
use syntax::kinds::{ElementKind, SELF_KW};

// What is asked for: the number of a rule, its side, of which 0 is the pattern and 1 the template, and an element.
#[derive(Clone, Copy)]
pub struct Question {
    pub rule: usize,
    pub side: u32,
    pub element: usize,
}

// An element of a rule's tree.
#[derive(Clone, Copy)]
pub struct Element {
    // What it resolves to as a path.
    pub path: Option<u32>,
    // What it is as a call that UFCS may match.
    pub call: Option<Call>,
    // Whether the tree has a `self` token, at this element or at another.
    pub contains_self: bool,
}

// What an element of a resolved tree is.
fn element_of(resolved: &Resolved, element: usize) -> Element
    ensures { result ≡ element_of resolved.now element }
{
    Element {
        path: resolved.path_at(element),
        call: resolved.call_at(element),
        contains_self: resolved.tree().root().contains(ElementKind::Token, SELF_KW),
    }
}

// An element of a side of a rule. A tree that has no such element is not resolved.
fn find_in_rule<const N: usize>(
    rule: &ResolvedRule<N>,
    asked: Question,
    tables: &mut Tables<N>,
) -> Option<Element>
    ensures { result ≡ in_rule rule.now asked.side asked.element }
{
    match asked.side {
        0 if asked.element < rule.pattern_tree().len() => {
            Some(element_of(&rule.resolve_pattern(tables), asked.element))
        }
        1 if asked.element < rule.template_tree()?.len() => {
            Some(element_of(&rule.resolve_template(tables)?, asked.element))
        }
        _ => None,
    }
}

// The same of the rule of a number.
fn find_in_rules<const N: usize>(
    rules: &ResolvedRules<N>,
    asked: Question,
    tables: &mut Tables<N>,
) -> Option<Element>
    ensures { result ≡ in_rules rules.now asked.rule asked.side asked.element }
{
    let rule = rules.rule(asked.rule)?;
    find_in_rule(&rule, asked, tables)
}

// The stages, and then the element, in tables of N.
fn resolve_in<const N: usize>(rules: Rules, asked: Question) -> Result<Option<Element>, Refusal>
    requires few { N ≤ 16384 }
    requires room { Roomy N rules.pairs.words }
    ensures { result ≡ resolved_element rules.entry asked.rule asked.side asked.element }
{
    stages::check_rules(&rules.pairs, Some(rules.fact_bytes))?;
    let mut tables: Tables<N> = Tables::new();
    let rules = ResolvedRules::new(rules, &mut tables)?;
    Ok(find_in_rules(&rules, asked, &mut tables))
}

// Resolving; none where there is no such rule, side or element as is asked for.
pub fn resolve_element(rules: Rules<'_>, asked: Question) -> Result<Option<Element>, Refusal>
    ensures { result ≡ resolved_element rules.entry asked.rule asked.side asked.element }
{
    if tables::are_few(rules.pairs.word_count()) {
        return resolve_in::<FEW>(rules, asked);
    }
    resolve_in::<ALL>(rules, asked)
}
