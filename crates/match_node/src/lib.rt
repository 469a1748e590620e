// The operation "Matching one node".
#![tactic(auto)]

ghost use Rattle.std.specs.Prelude.{◌≡◌, ◌≤◌, ◌/◌, length};
ghost use Rattle.words.specs.Buffer.{used_of};
ghost use Rattle.checks.specs.Given.{given_in, file_in};
ghost use Rattle.rule_paths.specs.Needs.{Roomy};
ghost use Rattle.match_node.specs.MatchNode.{matched_node, buffer_after, Answered};

use answers::NodeMatch;
use checks::Rules;
use errors::Refusal;
use facts::IndexTables;
use rule_match::preparing::MatchTables;
use rule_match::{Question, match_rule};
use rule_paths::accepted::{Accepted, check_and_resolve};
use rule_paths::tables;
use rule_paths::tables::{ALL, FEW, FEW_FACTS};
use syntax::kinds::NODES;
use trees::GivenFile;
use words::buffer;

// 23, and then the match, of rules and a file that were accepted.
fn match_asked<const N: usize>(
    accepted: &Accepted<'_, N>,
    question: Question,
    tables: &mut MatchTables<N>,
    out: &mut [u8],
) -> Result<Option<NodeMatch>, Refusal>
    requires { length out.old ≤ 1048576 }
    ensures { Answered accepted.now.rules (file_in accepted.now.file) question.rule question.range question.node out.old result out.new }
{
    let Some(rule) = accepted.rules.rule(question.rule) else {
        return errors::refuse(Refusal::NoSuchNodeOrRule, out);
    };
    if checks::is_reversed(question.range) {
        return errors::refuse(Refusal::NoSuchNodeOrRule, out);
    }
    if !accepted.file.tree.is_node_at(question.node, NODES) {
        return errors::refuse(Refusal::NoSuchNodeOrRule, out);
    }
    let state = match_rule(
        &rule,
        &accepted.file,
        question.node,
        question.range,
        tables,
        out,
    );
    answers::answer(state, out)
}

// All checks in turn, and then the match, in tables for N elements and an index of M facts of the file, and in a buffer that is used whole.
fn match_in<const N: usize, const M: usize>(
    rules: Rules<'_>,
    file: GivenFile<'_>,
    question: Question,
    out: &mut [u8],
) -> Result<Option<NodeMatch>, Refusal>
    requires few { N ≤ 16384 }
    requires few_facts { M ≤ 16384 }
    requires room { Roomy N rules.pairs.words }
    requires index_len { length file.facts.now / 4 ≤ 16383 → length file.facts.now / 4 ≤ M }
    requires out_len { length out.old ≤ 1048576 }
    ensures value { result ≡ matched_node rules.entry (given_in file.entry) question.rule question.range question.node (length out.old) }
    ensures out_after { out.new ≡ buffer_after rules.entry (given_in file.entry) question.rule question.range question.node out.old }
{
    let mut tables: MatchTables<N> = MatchTables::new();
    // Few facts are asked for, and where they begin is not worth knowing.
    let mut entries = [0u64; M];
    let index = IndexTables {
        entries: &mut entries,
        starts: &mut [],
    };
    match check_and_resolve(rules, file, &mut tables.resolving, index) {
        Ok(accepted) => match_asked(&accepted, question, &mut tables, out),
        Err(refusal) => errors::refuse(refusal, out),
    }
}

// In tables for few words, where these are enough.
fn match_used(
    rules: Rules<'_>,
    file: GivenFile<'_>,
    question: Question,
    out: &mut [u8],
) -> Result<Option<NodeMatch>, Refusal>
    requires { length out.old ≤ 1048576 }
    ensures value { result ≡ matched_node rules.entry (given_in file.entry) question.rule question.range question.node (length out.old) }
    ensures out_after { out.new ≡ buffer_after rules.entry (given_in file.entry) question.rule question.range question.node out.old }
{
    if !tables::are_few(rules.pairs.word_count()) {
        return match_in::<ALL, ALL>(rules, file, question, out);
    }
    if tables::are_few_facts(file.facts.len()) {
        return match_in::<FEW, FEW_FACTS>(rules, file, question, out);
    }
    match_in::<FEW, ALL>(rules, file, question, out)
}

// Matching one node.
#[tactic(auto, using(words::proofs::BufferLaws::used_small, words::proofs::BufferLaws::used_within, crate::proofs::AskedLaws::buffer_part))]
pub fn match_node(
    rules: Rules<'_>,
    file: GivenFile<'_>,
    question: Question,
    out: &mut [u8],
) -> Result<Option<NodeMatch>, Refusal>
    ensures value { result ≡ matched_node rules.entry (given_in file.entry) question.rule question.range question.node (used_of (length out.old)) }
    ensures out_after { out.new ≡ buffer_after rules.entry (given_in file.entry) question.rule question.range question.node out.old }
{
    let end = buffer::used(out.len());
    match_used(rules, file, question, &mut out[..end])
}
