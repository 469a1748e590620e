// A rule's template made ready for rendering: its pieces, told in a module.
#![tactic(auto)]

pub mod reading; // reading.rt: the fragments of a template that is ready
pub mod telling; // telling.rt: paths by the places of their facts

ghost use Rattle.std.specs.Prelude.{◌≡◌, true, false, map, ◌/◌, ◌≤◌, length, take, IfSome, is_some, Some};
ghost use Rattle.errors.specs.Refusals.{ok};
ghost use Rattle.fragments.specs.Pairs.{pairs_in};
ghost use Rattle.rules.specs.Forms.{any};
ghost use Rattle.rule_paths.specs.RulePaths.{pair_fails};
ghost use Rattle.checks.specs.Given.{rule_trees, found_rule};
ghost use Rattle.syntax.specs.Checks.{is_well_formed};
ghost use Rattle.syntax.specs.Siblings.{kind_of};
ghost use Rattle.paths.specs.Steps.{root_of};
ghost use Rattle.templates.specs.Pieces as templates;
ghost use Rattle.readying.specs.Templates.{rule_template, found_template};
ghost use Rattle.readying.specs.Ready.{told, Tells, TemplateOf, is_ready_for};

use fragments::forms::Side;
use paths::Resolved;
use rule_paths::passed::template_form;
use rule_paths::{ResolvedRule, ResolvedRules, Tables};
use templates::Piece;
use templates::rendering::render_template;

// A template that is ready: for which rule in which module, its root's kind, how many pieces it has, and the code and the facts that these speak of.
#[derive(Clone, Copy)]
pub struct ReadyTemplate<'a> {
    pub rule: usize,
    pub module: u32,
    pub kind: u32,
    pub count: usize,
    pub code: &'a [u8],
    pub facts: &'a [u32],
}

// Lays the pieces of a template and tells them in a module; how many these are.
fn lay_pieces(resolved: &Resolved<'_>, module: u32, pieces: &mut [Piece]) -> usize
    requires few { length resolved.now.side.facts / 4 ≤ 16383 }
    requires room { length resolved.now.words / 3 ≤ length pieces.old }
    ensures within { (length pieces.new ≡ length pieces.old) × (result ≤ length pieces.new) }
    ensures laid { take result pieces.new ≡ map (told resolved.now.side.facts «module») (templates.pieces resolved.now.side (root_of resolved.now)) }
{
    let count = render_template(resolved, pieces);
    telling::tell_paths(resolved.facts(), module, &mut pieces[..count]);
    count
}

// The kind of a template's root.
fn root_kind(resolved: &Resolved<'_>) -> u32
    ensures value { result ≡ kind_of (root_of resolved.now) }
    ensures formed { is_well_formed resolved.now.words ≡ true }
{
    resolved.tree().root().kind()
}

// Makes the template of a rule ready in a module.
fn ready_rule<'a, const N: usize>(
    rule: &ResolvedRule<'a, N>,
    number: usize,
    module: u32,
    tables: &mut Tables<N>,
    pieces: &mut [Piece],
) -> ReadyTemplate<'a>
    requires few { IfSome (rule_template rule.now) (λ t. length t.side.facts / 4 ≤ 16383) }
    requires there { is_some (rule_template rule.now) ≡ true }
    requires room { N ≤ length pieces.old }
    ensures length_unchanged { length pieces.new ≡ length pieces.old }
    ensures of_rule { (result.rule ≡ number) × (result.«module» ≡ «module») }
    ensures tells { Tells (rule_template rule.now) «module» result pieces.new }
{
    // `len` promises that there are eight at most.
    let _ = rule.pattern().placeholders.len();
    let own = rule.rule();
    let form = template_form(own.form, own.template).unwrap();
    let code = rule.pair().code(Side::Template);
    let facts = rule.pair().facts(Side::Template, form);
    let resolved = rule.resolve_template(tables).unwrap();
    let kind = root_kind(&resolved);
    let count = lay_pieces(&resolved, module, pieces);
    ReadyTemplate {
        rule: number,
        module,
        kind,
        count,
        code,
        facts,
    }
}

// Makes the template of a rule ready in a module, unless the one at hand is.
#[tactic(auto, using(crate::proofs::TellingLaws::few_facts, crate::proofs::TellingLaws::template_is, crate::proofs::TellingLaws::rule_is_there))]
pub fn make_ready<'a, const N: usize>(
    rules: &ResolvedRules<'a, N>,
    number: usize,
    module: u32,
    was: Option<ReadyTemplate<'a>>,
    tables: &mut Tables<N>,
    pieces: &mut [Piece],
) -> ReadyTemplate<'a>
    requires passed { (rule_trees rules.now ≡ ok) × (any (map pair_fails (pairs_in rules.now.pairs)) ≡ false) }
    requires there { is_some (found_template rules.now (found_rule rules.now number)) ≡ true }
    requires room { N ≤ length pieces.old }
    requires at_hand { IfSome was (λ t. TemplateOf rules.now t.rule t.«module» t pieces.old) }
    ensures length_unchanged { length pieces.new ≡ length pieces.old }
    ensures ready { TemplateOf rules.now number «module» result pieces.new }
    ensures kept { is_ready_for was.entry number «module» ≡ true → (Some result ≡ was.entry) × (pieces.new ≡ pieces.old) × (tables.new ≡ tables.old) }
{
    if let Some(t) = was {
        if (t.rule == number) & (t.module == module) {
            return t;
        }
    }
    let rule = rules.rule(number).unwrap();
    ready_rule(&rule, number, module, tables, pieces)
}
