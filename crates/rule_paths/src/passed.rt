// A pair whose trees passed their checks.
ghost use Rattle.std.specs.Prelude.{◌≡◌, true, ◌/◌, ◌≤◌, length, IfOk};
ghost use Rattle.fragments.specs.declared.forms.Side.TheVariants as sides;
ghost use Rattle.fragments.specs.Pairs.{text_of, tree_of, facts_of, is_present};
ghost use Rattle.rules.specs.Forms.{template_tree};
ghost use Rattle.paths.specs.Resolved.{resolving};
ghost use Rattle.paths.specs.Tables.{HasFacts};
ghost use Rattle.rule_paths.specs.RulePaths.{tree_at, template_form, tree_fails, template_fails, rule_fails, pair_fails, unresolved_if};
ghost use Rattle.rule_paths.specs.Needs.{Roomy, Passed};

use crate::Tables;
use errors::Refusal;
use fragments::forms::{Form, Side};
use fragments::pairs::Pair;
use parsing::patterns::Pattern;
use parsing::reading;
use paths::{Resolved, RuleTree};
use rules::forms;
use rules::forms::TemplateTree;
use std::marker::Model;
use syntax::trees::Tree;

// The form of a template's tree, where a rule has one.
pub fn template_form(form: Form, template: TemplateTree) -> Option<Form>
    ensures { result ≡ template_form form template }
{
    match template {
        TemplateTree::Own => Some(form),
        TemplateTree::StandIn => Some(Form::Statement),
        TemplateTree::Absent | TemplateTree::Missing => None,
    }
}

// A pair whose trees passed with their facts, none of more than N elements or facts, and the placeholders of its pattern.
#[derive(Drop)]
pub struct PassedPair<'a, const N: usize> {
    pair: Pair<'a>,
    pattern: Pattern<'a>,
    fact_bytes: usize,
}

impl<'a, const N: usize> Model for PassedPair<'a, N> {
    ghost use Rattle.fragments.specs.Pairs.{Pair};

    ghost Value = { Pair };

    ghost view = { λ p. p.pair };

    ghost use Rattle.parsing.specs.Vars.{vars_of};
    ghost use Rattle.rule_paths.specs.Needs.{IsPassed};

    ghost invariant = { λ p. IsPassed N p.pair (vars_of p.pattern) p.pattern.text.now p.fact_bytes };
}

impl<'a, const N: usize> PassedPair<'a, N> {
    ghost use Rattle.parsing.specs.Vars.{vars_of};
    ghost use Rattle.rule_paths.specs.RulePaths.{pattern_vars};

    // A pair that passed with a fact text of some bytes; so its lists were read.
    #[tactic(auto, using(crate::proofs::NeedLaws::list_read))]
    pub fn new(pair: Pair<'a>, fact_bytes: usize) -> Self
        requires passed { Passed fact_bytes pair }
        requires room { Roomy N pair.words }
        ensures { result ≡ pair.entry }
    {
        let pattern = reading::parse_pattern(pair.list(Side::Pattern)).unwrap();
        PassedPair {
            pair,
            pattern,
            fact_bytes,
        }
    }

    // The pair.
    pub fn pair(&self) -> &Pair<'a>
        ensures { result.now ≡ self.now }
    {
        &self.pair
    }

    // What its pattern's list was read as.
    pub fn pattern(&self) -> &Pattern<'a>
        ensures vars { vars_of result.now ≡ pattern_vars self.now }
        ensures text { result.now.text.now ≡ text_of sides.Pattern self.now }
    {
        &self.pattern
    }

    // The tree of a form on a side.
    pub fn tree(&self, side: Side, form: Form) -> Tree<'a>
        requires { is_present side form self.now ≡ true }
        ensures value { result.words.now ≡ tree_of side form self.now }
        ensures fits { length result.words.now / 3 ≤ N }
    {
        Tree::new(self.pair.tree(side, form))
    }

    // Its facts.
    fn facts(&self, side: Side, form: Form) -> &'a [u32]
        requires { is_present side form self.now ≡ true }
        ensures value { result.now ≡ facts_of side form self.now }
        ensures of_tree { HasFacts (tree_of side form self.now) result.now }
        ensures fit { length result.now / 4 ≤ N }
    {
        self.pair.facts(side, form)
    }

    // Resolves that tree.
    pub fn resolve<'t>(
        &'t self,
        side: Side,
        form: Form,
        tables: &'t mut Tables<N>,
    ) -> Result<Resolved<'t>, Refusal>
        requires { is_present side form self.now ≡ true }
        ensures value { result ≡ resolving (tree_at self.now side form) }
        ensures fits { IfOk result (λ t. length t.words / 3 ≤ N) }
    {
        let rule_tree = RuleTree::new(
            self.tree(side, form),
            self.pair.code(side),
            &self.pattern,
            self.facts(side, form),
            &mut tables.index,
        );
        rule_tree.resolve(&mut tables.notes)
    }

    // Whether every path that must resolve there has a fact.
    fn check(&self, side: Side, form: Form, tables: &mut Tables<N>) -> Result<(), Refusal>
        requires { is_present side form self.now ≡ true }
        ensures { result ≡ unresolved_if (tree_fails self.now side form) }
    {
        self.resolve(side, form, tables)?;
        Ok(())
    }

    // The same of the template's tree of a rule, where it has one.
    #[tactic(auto, using(crate::proofs::FailLaws::template_there, crate::proofs::FailLaws::no_template))]
    fn check_template(&self, form: Form, tables: &mut Tables<N>) -> Result<(), Refusal>
        ensures { result ≡ unresolved_if (template_fails self.now form (template_tree self.now form)) }
    {
        let template = forms::template_tree(&self.pair, form);
        let Some(other) = template_form(form, template) else {
            return Ok(());
        };
        self.check(Side::Template, other, tables)
    }

    // The same of both trees of a rule, the template's first.
    #[tactic(auto, using(crate::proofs::FailLaws::fails_first, crate::proofs::FailLaws::passes_on))]
    fn check_rule(&self, form: Form, tables: &mut Tables<N>) -> Result<(), Refusal>
        requires { is_present sides.Pattern form self.now ≡ true }
        ensures { result ≡ unresolved_if (rule_fails self.now form) }
    {
        self.check_template(form, tables)?;
        self.check(Side::Pattern, form, tables)
    }

    // The same of the rules that are left.
    #[tactic(auto, using(crate::proofs::FailLaws::next_there, crate::proofs::FailLaws::none_ahead))]
    pub fn check_rules(&self, tables: &mut Tables<N>) -> Result<(), Refusal>
        ensures { result ≡ unresolved_if (pair_fails self.now) }
    {
        for form in forms::left_forms(&self.pair) {
            self.check_rule(form, tables)?;
        }
        Ok(())
    }
}
