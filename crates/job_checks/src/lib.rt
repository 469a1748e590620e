// A job, and its checks behind 22, in document 01's order: 24 to 28.
#![tactic(auto)]

pub mod parse_checks; // parse_checks.rt: whether the parses that are handed in are well-formed (28)

ghost use Rattle.std.specs.Prelude.{◌≡◌, not, ◌≤◌, length, [], IfOk};
ghost use Rattle.errors.specs.Refusals.{ok};
ghost use Rattle.sorting.specs.Sorted.{sort};
ghost use Rattle.fragments.specs.Pairs.{pairs_in as all_pairs};
ghost use Rattle.rules.specs.declared.stages.Stage.TheVariants.{Forms};
ghost use Rattle.rules.specs.Numbering.{rules};
ghost use Rattle.rules.specs.Stages.{stage_outcome};
ghost use Rattle.candidates.specs.Candidates.{keys_of};
ghost use Rattle.trees.specs.Given.{outcome_of};
ghost use Rattle.job_checks.specs.Checks.{job_on, job_in, rules_in, pairs_in, candidates_in, any_without_template, named_outcome, once_outcome, asked_outcome, job_outcome};
ghost use Rattle.checks.specs.Given.{file_in, given_in};
ghost use Rattle.job_checks.specs.Checked.{Checked, Listed};

use checks::Rules;
use errors::Refusal;
use fragments::forms::Side;
use fragments::pairs::Pairs;
use parses::Parses;
use rule_paths::ResolvedRules;
use rules::numbering;
use syntax::trees::Tree;
use trees::{File, GivenFile};
use words::texts::Range;

// What a job and the walk are given: the rules' pairs, the text that their facts point into, the file, the parses, and a range that matches have
// to be in.
#[derive(Clone, Copy)]
pub struct Inputs<'a> {
    pub directory: &'a [u32],
    pub words: &'a [u32],
    pub bytes: &'a [u8],
    pub fact_text: &'a [u8],
    pub file: GivenFile<'a>,
    pub parses: &'a [u32],
    pub parse_text: &'a [u8],
    pub range: Option<Range>,
}

impl<'a> Inputs<'a> {
    // The rules.
    pub fn rules(&self) -> Rules<'a>
        ensures { result ≡ rules_in (job_on self.now []) }
    {
        Rules {
            pairs: Pairs::new(self.directory, self.words, self.bytes),
            fact_bytes: self.fact_text.len(),
        }
    }
}

// A job as it is handed in: its inputs, and its candidates.
#[derive(Clone, Copy)]
pub struct GivenJob<'a> {
    pub inputs: Inputs<'a>,
    pub candidates: &'a [u32],
}

// A job that passed its checks, with its rules, its file, its parses, and its candidates' keys in rising order.
#[derive(Drop)]
pub struct CheckedJob<'a, const N: usize> {
    pub given: GivenJob<'a>,
    pub rules: ResolvedRules<'a, N>,
    pub file: File<'a>,
    pub parses: Parses<'a>,
    pub keys: &'a [u64],
    pub ghost checked: { Checked (job_in given) rules file parses keys.now },
}

// What the checks of a job's candidates and parses leave.
#[derive(Drop)]
pub struct Asked<'a> {
    pub parses: Parses<'a>,
    pub keys: &'a [u64],
}

impl<'a, const N: usize> CheckedJob<'a, N> {
    // A job whose checks passed.
    pub fn new(
        given: GivenJob<'a>,
        rules: ResolvedRules<'a, N>,
        file: File<'a>,
        asked: Asked<'a>,
    ) -> Self
        requires passed { job_outcome (job_in given) ≡ ok }
        requires rules_are { rules ≡ rules_in (job_in given) }
        requires file_is { file_in file ≡ given_in given.inputs.file }
        requires listed { Listed (job_in given) asked.parses asked.keys.now }
        ensures given_is { job_in result.given ≡ job_in given.entry }
    {
        CheckedJob {
            given,
            rules,
            file,
            parses: asked.parses,
            keys: asked.keys,
        }
    }
}

// 24 and 25.
#[tactic(auto, unfolding(errors::specs::Refusals::first_of, crate::specs::Checks::named_outcome))]
fn check_candidates(job: &GivenJob, tree: Tree) -> Result<(), Refusal>
    requires { tree.words.now ≡ job.now.inputs.file.words.now }
    ensures { result ≡ named_outcome (job_in job.now) }
{
    let rules = numbering::count_rules(&job.inputs.rules().pairs);
    let count = candidates::count_candidates(job.candidates);
    if (16 < rules) | (1024 < count) {
        return Err(Refusal::TooManyRulesOrCandidates);
    }
    if checks::is_reversed(job.inputs.range) {
        return Err(Refusal::NoSuchCandidate);
    }
    if !candidates::are_named(tree, job.candidates, rules) {
        return Err(Refusal::NoSuchCandidate);
    }
    Ok(())
}

// 24, 25 and 26, and the candidates' keys in rising order: keys are made of candidates that 24 and 25 let pass, so 1,024 places suffice and a
// pair has one key.
#[tactic(auto, using(crate::proofs::JobLaws::list_refuses, crate::proofs::JobLaws::pair_twice, crate::proofs::JobLaws::none_twice))]
fn check_and_order<'a>(
    job: &GivenJob,
    tree: Tree,
    keys: &'a mut [u64],
) -> Result<&'a [u64], Refusal>
    requires tree_is { tree.words.now ≡ job.now.inputs.file.words.now }
    requires in_bounds { 1024 ≤ length keys.old }
    ensures value { outcome_of result ≡ once_outcome (job_in job.now) }
    ensures keys_after { IfOk result (λ sorted. sorted.now ≡ sort (keys_of (candidates_in (job_in job.now)))) }
{
    check_candidates(job, tree)?;
    let count = candidates::count_candidates(job.candidates);
    let own = &mut keys[..count];
    candidates::order_candidates(job.candidates, own);
    if candidates::is_repeated(own) {
        return Err(Refusal::RepeatedCandidate);
    }
    Ok(own)
}

// Whether every rule has a template. A rule has none where its pair has none, and every pair that passed 17 has a rule.
#[tactic(auto, using(crate::proofs::TemplateLaws::given_rules))]
pub fn have_templates(pairs: &Pairs) -> bool
    ensures { stage_outcome Forms (all_pairs pairs.now) ≡ ok → result ≡ not (any_without_template (rules (all_pairs pairs.now))) }
{
    pairs.iter().all(|pair| pair.is_given(Side::Template))
}

// 24 to 28, of rules that passed 17 and a job's tree.
#[tactic(auto, using(crate::proofs::JobLaws::once_refuses, crate::proofs::JobLaws::template_lacks, crate::proofs::JobLaws::parses_decide))]
pub fn check_asked<'a>(
    job: &GivenJob<'a>,
    tree: Tree,
    keys: &'a mut [u64],
) -> Result<Asked<'a>, Refusal>
    requires tree_is { tree.words.now ≡ job.now.inputs.file.words.now }
    requires passed { stage_outcome Forms (pairs_in (job_in job.now)) ≡ ok }
    requires in_bounds { 1024 ≤ length keys.old }
    ensures value { outcome_of result ≡ asked_outcome (job_in job.now) }
    ensures listed { IfOk result (λ asked. Listed (job_in job.now) asked.parses asked.keys.now) }
{
    let keys = check_and_order(job, tree, keys)?;
    if !have_templates(&job.inputs.rules().pairs) {
        return Err(Refusal::NoTemplate);
    }
    let parses = parse_checks::check_parses(job.inputs.parses, job.inputs.parse_text)?;
    Ok(Asked { parses, keys })
}
