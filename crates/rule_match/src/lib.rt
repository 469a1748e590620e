// One node of the file with one rule of those handed in.
#![tactic(auto)]

pub mod preparing; // preparing.rt: a rule made ready for matching

ghost use Rattle.std.specs.Prelude.{◌≡◌, true, length};
ghost use Rattle.captures.specs.Effects.{nothing, Gives};
ghost use Rattle.checks.specs.Given.{file_in, is_node_of};
ghost use Rattle.rule_match.specs.RuleMatch.{rule_match, attempt_of};

use crate::preparing::{MatchTables, Prepared};
use captures::State;
use get_match::get_match;
use rule_paths::{ResolvedRule, ResolvedRules};
use trees::File;
use words::texts::Range;

// What is asked: the number of a rule, a node, and the range that it has to be in, where one is given.
#[derive(Clone, Copy)]
pub struct Question {
    pub rule: usize,
    pub node: usize,
    pub range: Option<Range>,
}

// Matches a node of the file with a rule that was made ready.
#[tactic(auto, using(crate::proofs::MatchLaws::matches, crate::proofs::MatchLaws::is_node))]
pub fn match_prepared<const N: usize>(
    prepared: &Prepared<'_, N>,
    file: &File<'_>,
    node: usize,
    range: Option<Range>,
    out: &mut [u8],
) -> Option<State>
    requires { is_node_of (file_in file.now) node ≡ true }
    ensures out_len_unchanged { length out.new ≡ length out.old }
    ensures gives { Gives (rule_match prepared.now.pair prepared.now.rule (file_in file.now) range node) nothing out.old result out.new }
{
    let x = prepared.matcher(file);
    get_match(
        &x,
        prepared.pattern(),
        prepared.template(),
        node,
        range,
        out,
    )
}

// Makes a rule ready, and matches a node of the file with it.
pub fn match_rule<const N: usize>(
    rule: &ResolvedRule<'_, N>,
    file: &File<'_>,
    node: usize,
    range: Option<Range>,
    tables: &mut MatchTables<N>,
    out: &mut [u8],
) -> Option<State>
    requires { is_node_of (file_in file.now) node ≡ true }
    ensures out_len_unchanged { length out.new ≡ length out.old }
    ensures gives { Gives (rule_match rule.now.pair rule.now.rule (file_in file.now) range node) nothing out.old result out.new }
{
    let prepared = Prepared::new(rule, tables);
    match_prepared(&prepared, file, node, range, out)
}

// The same with the rule of a number, where there is one.
#[tactic(auto, using(crate::proofs::MatchLaws::found_gives, crate::proofs::MatchLaws::none_gives))]
pub fn match_number<const N: usize>(
    rules: &ResolvedRules<'_, N>,
    file: &File<'_>,
    question: Question,
    tables: &mut MatchTables<N>,
    out: &mut [u8],
) -> Option<State>
    requires { is_node_of (file_in file.now) question.node ≡ true }
    ensures out_len_unchanged { length out.new ≡ length out.old }
    ensures gives { Gives (attempt_of rules.now (file_in file.now) question.range question.node question.rule) nothing out.old result out.new }
{
    let rule = rules.rule(question.rule)?;
    match_rule(&rule, file, question.node, question.range, tables, out)
}
