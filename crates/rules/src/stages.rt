// The checks that all pairs go through, stage by stage.
ghost use Rattle.std.specs.Prelude.{◌≡◌, option_map};
ghost use Rattle.errors.specs.Refusals.{lowest};
ghost use Rattle.fragments.specs.Forms.{five};
ghost use Rattle.fragments.specs.Pairs.{pairs_in};
ghost use Rattle.tokens.specs.Tokens.{parts_of};
ghost use Rattle.rules.specs.Stages.{given_list, owner_of, form_outcome, lists_outcome, side_outcome, trees_outcome, forms_outcome, pair_stage, stage_outcome, rules_outcome};

use crate::forms;
use errors::Refusal;
use facts::Owner;
use fragments::forms::{Form, Side};
use fragments::pairs::{Pair, Pairs};
use tokens::TokenList;
use trees::GivenTree;
use trees::tree_checks::TreeText;

// A stage of checks.
#[derive(Clone, Copy)]
pub enum Stage {
    // 1 to 15 of the lists.
    Lists,
    // 18 to 20 of the trees; to 21 where facts are looked at, with a fact text of some bytes.
    Trees(Option<usize>),
    // 17.
    Forms,
}

// Whose a side's trees are.
pub fn owner_of(side: Side) -> Owner
    ensures { result ≡ owner_of side }
{
    match side {
        Side::Pattern => Owner::Pattern,
        Side::Template => Owner::Template,
    }
}

// A side's list, where it is given.
fn given_list<'a>(pair: &Pair<'a>, side: Side) -> Option<TokenList<'a>>
    ensures { option_map parts_of result ≡ given_list side pair.now }
{
    if !pair.is_given(side) {
        return None;
    }
    Some(pair.list(side))
}

// A form's tree on a side, over the side's code.
fn check_form(
    pair: &Pair,
    side: Side,
    form: Form,
    code: TreeText,
    fact_bytes: Option<usize>,
) -> Result<(), Refusal>
    ensures { result ≡ form_outcome fact_bytes pair.now side code.is_right code.bytes form }
{
    let (facts, fact_bytes) = match fact_bytes {
        Some(bytes) => (pair.facts(side, form), bytes),
        None => (&[][..], 0),
    };
    let tree = GivenTree {
        owner: owner_of(side),
        words: pair.tree(side, form),
        facts,
        fact_bytes,
    };
    tree.check_rule_tree(code)
}

// The trees of a side.
fn check_forms(
    pair: &Pair,
    side: Side,
    code: TreeText,
    fact_bytes: Option<usize>,
) -> Result<(), Refusal>
    ensures { result ≡ lowest (five (form_outcome fact_bytes pair.now side code.is_right code.bytes)) }
{
    Form::ALL.iter().fold(Ok(()), |lowest, form| {
        errors::lowest(lowest, check_form(pair, side, *form, code, fact_bytes))
    })
}

// The trees of a side with its list, which is read once for all of them.
#[tactic(auto, using(crate::proofs::StageLaws::side_refused))]
fn check_side(pair: &Pair, side: Side, fact_bytes: Option<usize>) -> Result<(), Refusal>
    ensures { result ≡ side_outcome fact_bytes pair.now side }
{
    let code = pair.code(side);
    let text = TreeText {
        is_right: trees::has_right_text(given_list(pair, side), code)?,
        bytes: code.len(),
    };
    check_forms(pair, side, text, fact_bytes)
}

// The trees of a pair.
fn check_trees(pair: &Pair, fact_bytes: Option<usize>) -> Result<(), Refusal>
    ensures { result ≡ trees_outcome fact_bytes pair.now }
{
    errors::lowest(
        check_side(pair, Side::Pattern, fact_bytes),
        check_side(pair, Side::Template, fact_bytes),
    )
}

// The lists of a pair.
fn check_lists(pair: &Pair) -> Result<(), Refusal>
    ensures { result ≡ lists_outcome pair.now }
{
    validating::validate_rule(pair.list(Side::Pattern), given_list(pair, Side::Template))
}

// Whether a form of a pair is a rule.
#[tactic(auto, using(crate::proofs::StageLaws::has_forms, crate::proofs::StageLaws::no_forms))]
fn check_any_form(pair: &Pair) -> Result<(), Refusal>
    ensures { result ≡ forms_outcome pair.now }
{
    if forms::any(&forms::rule_forms(pair)) {
        return Ok(());
    }
    Err(Refusal::NoForm)
}

// A stage of one pair.
fn check_pair(stage: Stage, pair: &Pair) -> Result<(), Refusal>
    ensures { result ≡ pair_stage stage pair.now }
{
    match stage {
        Stage::Lists => check_lists(pair),
        Stage::Trees(fact_bytes) => check_trees(pair, fact_bytes),
        Stage::Forms => check_any_form(pair),
    }
}

// A stage of all pairs: the lowest of their refusals.
pub fn check_stage(stage: Stage, pairs: &Pairs) -> Result<(), Refusal>
    ensures { result ≡ stage_outcome stage (pairs_in pairs.now) }
{
    pairs.iter().fold(
        Ok(()),
        |lowest, pair| errors::lowest(lowest, check_pair(stage, &pair)),
    )
}

// The directory, the lists, the trees and the forms, in turn; facts are looked at where their text's bytes are given.
#[tactic(auto, using(crate::proofs::StageLaws::no_directory, crate::proofs::StageLaws::lists_decide, crate::proofs::StageLaws::trees_decide, crate::proofs::StageLaws::forms_decide))]
pub fn check_rules(pairs: &Pairs, fact_bytes: Option<usize>) -> Result<(), Refusal>
    ensures { result ≡ rules_outcome fact_bytes pairs.now }
{
    if !pairs.is_well_formed() {
        return Err(Refusal::MalformedList);
    }
    check_stage(Stage::Lists, pairs)?;
    check_stage(Stage::Trees(fact_bytes), pairs)?;
    check_stage(Stage::Forms, pairs)
}
