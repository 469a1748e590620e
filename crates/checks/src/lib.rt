// What is handed in and checked before rules are resolved: the rules, and the file's tree with its facts among the rules' trees.
#![tactic(auto)]

ghost use Rattle.std.specs.Prelude.{◌≡◌, ◌/◌, ◌≤◌, length, IfOk};
ghost use Rattle.trees.specs.Given.{outcome_of};
ghost use Rattle.checks.specs.Given.{given_in, file_in, trees_outcome, given_outcome, found_rule, is_reversed};

use errors::Refusal;
use facts::IndexTables;
use fragments::pairs::Pairs;
use rules::numbering::Rule;
use rules::stages::Stage;
use rules::{numbering, stages};
use trees::{File, GivenFile};
use words::texts::Range;

// The rules as they are handed in: all pairs, and how many bytes the text of their facts has.
#[derive(Drop)]
pub struct Rules<'a> {
    pub pairs: Pairs<'a>,
    pub fact_bytes: usize,
}

impl<'a> Rules<'a> {
    // The rule of a number.
    pub fn rule(&self, number: usize) -> Option<Rule>
        ensures { result ≡ found_rule self.now number }
    {
        numbering::rule_at(&self.pairs, number)
    }
}

// Whether a range that matches are restricted to is one whose start is after its end.
pub fn is_reversed(range: Option<Range>) -> bool
    ensures { result ≡ is_reversed range }
{
    range.is_some_and(|r| r.end < r.start)
}

// What of an answer is its refusal.
fn outcome_of<T>(answer: &Result<T, Refusal>) -> Result<(), Refusal>
    ensures { result ≡ outcome_of answer.now }
{
    match answer {
        Ok(_) => Ok(()),
        Err(refusal) => Err(*refusal),
    }
}

// 18 to 21 of the rules' trees and of the file's, the lowest of their numbers, then 17.
#[tactic(auto, using(crate::proofs::GivenLaws::trees_refuse, crate::proofs::GivenLaws::forms_decide, crate::proofs::GivenLaws::both_accepted))]
fn check_trees<'a>(
    rules: &Rules,
    file: GivenFile<'a>,
    index: IndexTables<'a>,
) -> Result<File<'a>, Refusal>
    requires { length file.facts.now / 4 ≤ 16383 → length file.facts.now / 4 ≤ length index.entries.now }
    ensures value { outcome_of result ≡ trees_outcome rules.now (given_in file.entry) }
    ensures file { IfOk result (λ accepted. file_in accepted ≡ given_in file.entry) }
{
    let of_rules = stages::check_stage(Stage::Trees(Some(rules.fact_bytes)), &rules.pairs);
    let of_file = trees::check_and_index_file(file, index);
    errors::lowest(of_rules, outcome_of(&of_file))?;
    stages::check_stage(Stage::Forms, &rules.pairs)?;
    of_file
}

// All of them in turn, and the file where they are accepted.
#[tactic(auto, using(crate::proofs::GivenLaws::no_directory, crate::proofs::GivenLaws::lists_refuse, crate::proofs::GivenLaws::trees_decide))]
pub fn check_given<'a>(
    rules: &Rules,
    file: GivenFile<'a>,
    index: IndexTables<'a>,
) -> Result<File<'a>, Refusal>
    requires { length file.facts.now / 4 ≤ 16383 → length file.facts.now / 4 ≤ length index.entries.now }
    ensures value { outcome_of result ≡ given_outcome rules.now (given_in file.entry) }
    ensures file { IfOk result (λ accepted. file_in accepted ≡ given_in file.entry) }
{
    if !rules.pairs.is_well_formed() {
        return Err(Refusal::MalformedList);
    }
    stages::check_stage(Stage::Lists, &rules.pairs)?;
    check_trees(rules, file, index)
}
