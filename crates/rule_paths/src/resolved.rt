// Rules in which every path that must resolve has a fact.
ghost use Rattle.std.specs.Prelude.{◌≡◌, ◌/◌, ◌≤◌, length, min, option_map, IfSome};
ghost use Rattle.fragments.specs.declared.forms.Side.TheVariants as sides;
ghost use Rattle.errors.specs.Refusals.{ok};
ghost use Rattle.fragments.specs.Pairs.{tree_of, pairs_in};
ghost use Rattle.rules.specs.Numbering.{rules as rules_of};
ghost use Rattle.checks.specs.Given.{rule_trees, found_rule};
ghost use Rattle.rule_paths.specs.RulePaths.{pattern_vars, tree_at, template_form, resolving_rules};
ghost use Rattle.rule_paths.specs.Needs.{Roomy, paired};

use crate::{PassedPair, Tables, passed};
use arrayvec::ArrayVec;
use checks::Rules;
use errors::Refusal;
use fragments::forms::Side;
use fragments::pairs::Pair;
use parsing::patterns::Pattern;
use paths::Resolved;
use rules::numbering;
use rules::numbering::Rule;
use std::marker::Model;
use syntax::trees::Tree;

// A rule that is left, with its pair, both of whose trees resolve.
#[derive(Drop)]
pub struct ResolvedRule<'a, const N: usize> {
    pair: PassedPair<'a, N>,
    rule: Rule,
}

impl<'a, const N: usize> Model for ResolvedRule<'a, N> {
    ghost use Rattle.rule_paths.specs.Needs.{PairedRule, IsLeft};

    ghost Value = { PairedRule };

    ghost view = { λ r. record { pair = r.pair; rule = r.rule } };

    ghost invariant = { λ r. IsLeft r.pair r.rule };
}

impl<'a, const N: usize> ResolvedRule<'a, N> {
    ghost use Rattle.parsing.specs.Vars.{vars_of};

    // The pair.
    pub fn pair(&self) -> &Pair<'a>
        ensures { result.now ≡ self.now.pair }
    {
        self.pair.pair()
    }

    // The rule.
    pub fn rule(&self) -> Rule
        ensures { result ≡ self.now.rule }
    {
        self.rule
    }

    // What its pattern's list was read as.
    pub fn pattern(&self) -> &Pattern<'a>
        ensures { vars_of result.now ≡ pattern_vars self.now.pair }
    {
        self.pair.pattern()
    }

    // The tree of its pattern.
    #[tactic(auto, using(crate::proofs::FailLaws::left_there))]
    pub fn pattern_tree(&self) -> Tree<'a>
        ensures value { result.words.now ≡ tree_of sides.Pattern self.now.rule.form self.now.pair }
        ensures fits { length result.words.now / 3 ≤ N }
    {
        let rule = self.rule;
        self.pair.tree(Side::Pattern, rule.form)
    }

    // That tree, resolved.
    #[tactic(auto, using(crate::proofs::FailLaws::left_there, crate::proofs::LeftLaws::pattern_resolves))]
    pub fn resolve_pattern<'t>(&'t self, tables: &'t mut Tables<N>) -> Resolved<'t>
        ensures value { result ≡ tree_at self.now.pair sides.Pattern self.now.rule.form }
        ensures fits { length result.words / 3 ≤ N }
    {
        let rule = self.rule;
        self.pair.resolve(Side::Pattern, rule.form, tables).unwrap()
    }

    // The tree of its template, where it has one.
    #[tactic(auto, using(crate::proofs::FailLaws::template_there))]
    pub fn template_tree(&self) -> Option<Tree<'a>>
        ensures { option_map (λ t. t.words.now) result ≡ option_map (λ f. tree_of sides.Template f self.now.pair) (template_form self.now.rule.form self.now.rule.template) }
    {
        let rule = self.rule;
        let form = passed::template_form(rule.form, rule.template)?;
        Some(self.pair.tree(Side::Template, form))
    }

    // That tree, resolved.
    #[tactic(auto, using(crate::proofs::FailLaws::template_there, crate::proofs::LeftLaws::template_resolves))]
    pub fn resolve_template<'t>(&'t self, tables: &'t mut Tables<N>) -> Option<Resolved<'t>>
        ensures value { result ≡ option_map (tree_at self.now.pair sides.Template) (template_form self.now.rule.form self.now.rule.template) }
        ensures fits { IfSome result (λ t. length t.words / 3 ≤ N) }
    {
        let rule = self.rule;
        let form = passed::template_form(rule.form, rule.template)?;
        Some(self.pair.resolve(Side::Template, form, tables).unwrap())
    }
}

// Rules whose trees passed their checks, none of more than N elements or facts, and resolve. The first of them are kept: to find one goes
// through all pairs before it, and looks for paths in their trees.
#[derive(Drop)]
pub struct ResolvedRules<'a, const N: usize> {
    rules: Rules<'a>,
    first: ArrayVec<Rule, 16>,
}

impl<'a, const N: usize> Model for ResolvedRules<'a, N> {
    ghost use Rattle.checks.specs.declared.Rules.{Rules};

    ghost Value = { Rules };

    ghost use Rattle.rule_paths.specs.Needs.{AreResolved};

    ghost view = { λ r. r.rules };

    ghost invariant = { λ r. AreResolved N r.rules r.first.items };
}

impl<'a, const N: usize> ResolvedRules<'a, N> {
    // Resolves all rules that are left; the tables are of the tree resolved last.
    #[tactic(auto, using(crate::proofs::PairLaws::none_ahead, crate::proofs::PairLaws::some_fails))]
    pub fn new(rules: Rules<'a>, tables: &mut Tables<N>) -> Result<Self, Refusal>
        requires passed { rule_trees rules ≡ ok }
        requires room { Roomy N rules.pairs.words }
        ensures { result ≡ resolving_rules rules.entry }
    {
        for pair in &rules.pairs {
            PassedPair::<N>::new(pair, rules.fact_bytes).check_rules(tables)?;
        }
        let first = numbering::first_rules(&rules.pairs);
        Ok(ResolvedRules { rules, first })
    }

    // The rules.
    pub fn rules(&self) -> &Rules<'a>
        ensures { result.now ≡ self.now }
    {
        &self.rules
    }

    // How many of them there are, or are kept.
    pub fn count(&self) -> usize
        ensures { result ≡ min 16 (length (rules_of (pairs_in self.now.pairs))) }
    {
        self.first.len()
    }

    // The one of a number.
    #[tactic(auto, using(crate::proofs::LeftLaws::kept_rule))]
    fn find_rule(&self, number: usize) -> Option<Rule>
        ensures { result ≡ found_rule self.now number }
    {
        if number < 16 {
            let kept = self.first.as_slice().get(number)?;
            return Some(*kept);
        }
        self.rules.rule(number)
    }

    // The rule of a number.
    pub fn rule(&self, number: usize) -> Option<ResolvedRule<'a, N>>
        ensures { result ≡ option_map (paired self.now) (found_rule self.now number) }
    {
        let rule = self.find_rule(number)?;
        let pair = self.rules.pairs.at(rule.pair);
        Some(ResolvedRule {
            pair: PassedPair::new(pair, self.rules.fact_bytes),
            rule,
        })
    }
}
