// The rules left, numbered from 0 by pair and then by form.
ghost use Rattle.std.specs.Prelude.{◌≡◌, ◌++◌, ◌≤◌, length, map, take};
ghost use Rattle.fragments.specs.Pairs.{pairs_in};
ghost use Rattle.rules.specs.Forms.{forms_left};
ghost use Rattle.rules.specs.Numbering.{rule_of, rules, rule_at};

use crate::forms;
use crate::forms::TemplateTree;
use arrayvec::ArrayVec;
use fragments::forms::Form;
use fragments::pairs::{Pair, Pairs};

// A rule: the number of its pair, its form, and its template's tree.
#[derive(Clone, Copy, Default)]
pub struct Rule {
    pub pair: usize,
    pub form: Form,
    pub template: TemplateTree,
}

// How many rules are left.
#[tactic(auto, using(crate::proofs::RuleLaws::count_sum))]
pub fn count_rules(pairs: &Pairs) -> usize
    ensures { result ≡ length (rules (pairs_in pairs.now)) }
{
    pairs
        .iter()
        .map(|pair| forms::left_forms(&pair).len())
        .sum()
}

// The rule of a number.
#[tactic(auto, using(crate::proofs::RuleLaws::at_here, crate::proofs::RuleLaws::at_behind, crate::proofs::RuleLaws::none_passed, crate::proofs::RuleLaws::at_none))]
pub fn rule_at(pairs: &Pairs, number: usize) -> Option<Rule>
    ensures { result ≡ rule_at (rules (pairs_in pairs.now)) number }
{
    let mut left = number;
    for (n, pair) in pairs.iter().enumerate() {
        let forms = forms::left_forms(&pair);
        if let Some(form) = forms.get(left) {
            return Some(Rule {
                pair: n,
                form,
                template: forms::template_tree(&pair, form),
            });
        }
        left -= forms.len();
    }
    None
}

// Adds the rules of the pair of a number to those before it, as far as there is room.
#[tactic(auto, using(crate::proofs::FirstLaws::one_more, crate::proofs::FirstLaws::all_added))]
fn add_rules(number: usize, pair: &Pair, first: &mut ArrayVec<Rule, 16>)
    requires { length first.old.items ≤ 16 }
    ensures { first.new.items ≡ take 16 (first.old.items ++ map (rule_of number pair.now) (forms_left pair.now)) }
{
    for form in forms::left_forms(pair) {
        if first.is_full() {
            return;
        }
        first.push(Rule {
            pair: number,
            form,
            template: forms::template_tree(pair, form),
        });
    }
}

// The first rules left: as many as a job and the walk may have.
pub fn first_rules(pairs: &Pairs) -> ArrayVec<Rule, 16>
    ensures { result.items ≡ take 16 (rules (pairs_in pairs.now)) }
{
    let mut first = ArrayVec::new();
    for (n, pair) in pairs.iter().enumerate() {
        if first.is_full() {
            return first;
        }
        add_rules(n, &pair, &mut first);
    }
    first
}
