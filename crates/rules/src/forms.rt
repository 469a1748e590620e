// The forms of a pair that are rules, and those left.
ghost use Rattle.std.specs.Prelude.{◌≡◌, ◌≤◌, length, slice_get};
ghost use Rattle.std.specs.Iterator.{YieldsFirst, item_count};
ghost use Rattle.fragments.specs.Forms.{five};
ghost use Rattle.rules.specs.Forms.{template_tree, is_there, is_rule, any, is_path_rule, is_left, forms_left};

use fragments::forms::{Form, Side};
use fragments::pairs::Pair;
use std::marker::Model;
use syntax::kinds::{ElementKind, PATH};
use syntax::parts::Part;

// The template's tree of a rule.
#[derive(Clone, Copy, Default)]
pub enum TemplateTree {
    // No template was given.
    #[default]
    Absent,
    // The form's own tree.
    Own,
    // The statement's tree, in place of the expression's.
    StandIn,
    // There is none, so the form is no rule.
    Missing,
}

impl TemplateTree {
    // Whether it is there, or none is wanted.
    fn is_there(self) -> bool
        ensures { result ≡ is_there self }
    {
        self != TemplateTree::Missing
    }
}

// The template's tree of a form.
pub fn template_tree(pair: &Pair, form: Form) -> TemplateTree
    ensures { result ≡ template_tree pair.now form }
{
    if !pair.is_given(Side::Template) {
        return TemplateTree::Absent;
    }
    if pair.is_present(Side::Template, form) {
        return TemplateTree::Own;
    }
    if form == Form::Expression && pair.is_present(Side::Template, Form::Statement) {
        return TemplateTree::StandIn;
    }
    TemplateTree::Missing
}

// Whether a form is a rule.
fn is_rule(pair: &Pair, form: Form) -> bool
    ensures { result ≡ is_rule pair.now form }
{
    pair.is_present(Side::Pattern, form) && template_tree(pair, form).is_there()
}

// Whether it is one with a PATH in its pattern.
fn is_path_rule(pair: &Pair, form: Form) -> bool
    ensures { result ≡ is_path_rule pair.now form }
{
    is_rule(pair, form)
        && Part::new(pair.tree(Side::Pattern, form)).contains(ElementKind::Node, PATH)
}

// Whether one of several holds.
pub fn any(flags: &[bool]) -> bool
    ensures { result ≡ any flags.now }
{
    flags.iter().any(|holds| *holds)
}

// The forms that are rules.
pub fn rule_forms(pair: &Pair) -> [bool; 5]
    ensures { result ≡ five (is_rule pair.now) }
{
    Form::ALL.map(|form| is_rule(pair, form))
}

// Those with a PATH in their pattern.
fn path_forms(pair: &Pair) -> [bool; 5]
    ensures { result ≡ five (is_path_rule pair.now) }
{
    Form::ALL.map(|form| is_path_rule(pair, form))
}

// Some of the forms, one by one: those to come of which a test holds.
#[derive(Drop)]
pub struct FormsLeft {
    is_left: [bool; 5],
    to_come: &'static [Form],
}

impl Model for FormsLeft {
    ghost use Rattle.std.specs.Prelude.{List};
    ghost use Rattle.fragments.specs.declared.forms.Form.{Form};
    ghost use Rattle.rules.specs.Forms.{passing, flag};

    ghost Value = { List Form };

    ghost view = { λ s. passing (flag s.is_left) s.to_come.now };
}

impl FormsLeft {
    // How many there are.
    pub fn len(&self) -> usize
        ensures { result ≡ length self.now }
    {
        let is_left = self.is_left;
        self.to_come
            .iter()
            .filter(|form| is_left[**form as usize])
            .count()
    }

    // The one of a number.
    pub fn get(&self, number: usize) -> Option<Form>
        ensures { result ≡ slice_get self.now number }
    {
        let is_left = self.is_left;
        self.to_come
            .iter()
            .filter(|form| is_left[**form as usize])
            .nth(number)
            .copied()
    }
}

impl Iterator for FormsLeft {
    type Item = Form;

    ghost next_gives = { YieldsFirst (λ left. left) };

    ghost remaining = { item_count (λ left. left) };

    #[tactic(auto, unfolding(crate::specs::Forms::passing))]
    fn next(&mut self) -> Option<Form> {
        while let Some((form, others)) = self.to_come.split_first() {
            self.to_come = others;
            if self.is_left[*form as usize] {
                return Some(*form);
            }
        }
        None
    }
}

// The flags of the forms left.
#[tactic(auto, using(crate::proofs::FormLaws::left_paths, crate::proofs::FormLaws::left_rules))]
fn left_flags(pair: &Pair) -> [bool; 5]
    ensures { result ≡ five (is_left pair.now) }
{
    let paths = path_forms(pair);
    if any(&paths) {
        return paths;
    }
    rule_forms(pair)
}

// The forms left.
#[tactic(auto, using(crate::proofs::FormLaws::few_passing))]
pub fn left_forms(pair: &Pair) -> FormsLeft
    ensures forms { result ≡ forms_left pair.now }
    ensures few { length result ≤ 5 }
{
    FormsLeft {
        is_left: left_flags(pair),
        to_come: &Form::ALL,
    }
}
