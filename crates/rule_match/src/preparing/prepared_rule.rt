// A rule made ready.
ghost use Rattle.std.specs.Prelude.{◌≡◌, option_map, option_copied};
ghost use Rattle.fragments.specs.declared.forms.Side.TheVariants as sides;
ghost use Rattle.fragments.specs.Pairs.{tree_of};
ghost use Rattle.matcher.specs.Matcher.{matcher_of};
ghost use Rattle.rule_paths.specs.RulePaths.{tree_at, template_form};
ghost use Rattle.checks.specs.Given.{file_in};
ghost use Rattle.rule_match.specs.Ready.{form_matcher};

use crate::preparing::MatchTables;
use fragments::forms::Side;
use matcher::Matcher;
use matcher::marks::{Limit, Mark};
use matcher::token_matching::COMMA_SHEET;
use paths::Resolved;
use prepared::{limits, marking};
use rule_paths::ResolvedRule;
use std::marker::Model;
use syntax::trees::Tree;
use trees::File;

// A rule with its pattern's tree and text, the marks of the elements and the limits of the placeholders, and its template's tree, resolved,
// where it has one.
#[derive(Drop)]
pub struct Prepared<'t, const N: usize> {
    rule: &'t ResolvedRule<'t, N>,
    pattern: Tree<'t>,
    code: &'t [u8],
    marks: &'t [Mark],
    limits: [Limit; 8],
    template: Option<Resolved<'t>>,
}

impl<'t, const N: usize> Model for Prepared<'t, N> {
    ghost use Rattle.rule_paths.specs.Needs.{PairedRule};

    ghost Value = { PairedRule };

    ghost view = { λ p. p.rule.now };

    ghost use Rattle.rule_match.specs.Ready.{Ready};

    ghost invariant = { λ p. Ready p.rule.now p.pattern.words.now p.code.now p.marks.now p.limits p.template };
}

impl<'t, const N: usize> Prepared<'t, N> {
    // Makes a rule ready: the marks are its pattern's, and then resolving's tables are its template's.
    pub fn new(rule: &'t ResolvedRule<'t, N>, tables: &'t mut MatchTables<N>) -> Prepared<'t, N>
        ensures { result ≡ rule.now }
    {
        let work = &mut tables.resolving;
        let resolved = (&*rule).resolve_pattern(&mut *work);
        let marks: &'t mut [Mark] = &mut tables.marks;
        marking::mark_pattern(&resolved, &mut *marks);
        let template = rule.resolve_template(work);
        let pattern = rule.pattern_tree();
        Prepared {
            rule,
            pattern,
            code: rule.pair().code(Side::Pattern),
            marks: &marks[..pattern.len()],
            limits: limits::limits_of(rule.pattern()),
            template,
        }
    }

    // The rule.
    pub fn rule(&self) -> &ResolvedRule<'t, N>
        ensures { result.now ≡ self.now }
    {
        self.rule
    }

    // The tree of its pattern.
    pub fn pattern(&self) -> Tree<'t>
        ensures { result.words.now ≡ tree_of sides.Pattern self.now.rule.form self.now.pair }
    {
        self.pattern
    }

    // The tree of its template, where it has one.
    pub fn template(&self) -> Option<&Resolved<'t>>
        ensures { option_copied result ≡ option_map (tree_at self.now.pair sides.Template) (template_form self.now.rule.form self.now.rule.template) }
    {
        self.template.as_ref()
    }

    // What matching a file with it looks at.
    #[tactic(auto, using(crate::proofs::ReadyLaws::matcher_is))]
    pub fn matcher<'m>(&'m self, file: &'m File<'m>) -> Matcher<'m>
        ensures matcher { matcher_of result ≡ form_matcher self.now.pair self.now.rule.form (file_in file.now) }
        ensures tree { result.tree ≡ file.now.tree }
    {
        Matcher {
            rule: self.code,
            marks: self.marks,
            limits: self.limits,
            file: file.text,
            tree: file.tree,
            facts: &file.facts,
            sheet: &COMMA_SHEET,
        }
    }
}
