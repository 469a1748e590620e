// What the walk answers: its candidates, its checks, and that within the limits it is the job on its list.
#![tactic(auto)]

ghost use Rattle.std.specs.Prelude.{◌≡◌, ◌/◌, ◌≤◌, length, take, IfOk};
ghost use Rattle.errors.specs.Refusals.{ok, first_of};
ghost use Rattle.rules.specs.declared.stages.Stage.TheVariants.{Forms};
ghost use Rattle.rules.specs.Stages.{stage_outcome};
ghost use Rattle.trees.specs.Given.{outcome_of};
ghost use Rattle.rule_paths.specs.Needs.{Roomy};
ghost use Rattle.job_checks.specs.Checks.{pairs_in, job_in};
ghost use Rattle.walk_answers.specs.Walk.{walk_in, walk_matches, walk_checks, before_matches, walk_outcome};
ghost use Rattle.walk_answers.specs.Walkable.{Walkable, FoundJob};

use errors::Refusal;
use facts::IndexTables;
use job_checks::{CheckedJob, GivenJob, Inputs};
use rule_paths::Tables;
use rule_paths::accepted::Accepted;
use rules::numbering;
use walk_nodes::found::Found;

// 24 over 16 rules, 25 and 27, of rules that passed 17.
#[tactic(auto, unfolding(errors::specs::Refusals::first_of))]
pub fn check_rules(given: &Inputs) -> Result<(), Refusal>
    requires { stage_outcome Forms (pairs_in (walk_in given.now)) ≡ ok }
    ensures { result ≡ first_of (take 3 (walk_checks (walk_in given.now))) }
{
    let rules = given.rules();
    if 16 < numbering::count_rules(&rules.pairs) {
        return Err(Refusal::TooManyRulesOrCandidates);
    }
    if checks::is_reversed(given.range) {
        return Err(Refusal::NoSuchCandidate);
    }
    if !job_checks::have_templates(&rules.pairs) {
        return Err(Refusal::NoTemplate);
    }
    Ok(())
}

// All that is looked at before the walk's matches: 1 to 22, then these; and what was accepted.
#[tactic(auto, using(crate::proofs::CheckLaws::rules_decide))]
pub fn check_walk<'a, const N: usize>(
    given: &Inputs<'a>,
    tables: &mut Tables<N>,
    index: IndexTables<'a>,
) -> Result<Accepted<'a, N>, Refusal>
    requires room { Roomy N given.now.words.now }
    requires index_len { length given.now.file.facts.now / 4 ≤ 16383 → length given.now.file.facts.now / 4 ≤ length index.entries.now }
    ensures value { outcome_of result ≡ before_matches (walk_in given.now) }
    ensures walkable { IfOk result (λ a. Walkable (walk_in given.now) a.rules a.file) }
{
    let accepted = rule_paths::accepted::check_and_resolve(
        given.rules(),
        given.file,
        tables,
        index,
    )?;
    check_rules(given)?;
    Ok(accepted)
}

// 28, behind the candidates that were found, and the job on these: they pass a job's checks, and its edit list is the walk's.
pub fn check_found<'a, const N: usize>(
    given: Inputs<'a>,
    accepted: Accepted<'a, N>,
    found: &'a Found,
    keys: &'a mut [u64; 1024],
) -> Result<CheckedJob<'a, N>, Refusal>
    requires walkable { Walkable (walk_in given) accepted.rules accepted.file }
    requires matches { found.now ≡ walk_matches (walk_in given) }
    ensures value { outcome_of result ≡ walk_outcome (walk_in given.entry) }
    ensures found_job { IfOk result (λ job. FoundJob given.entry (job_in job.given)) }
{
    let candidates = found.words();
    let keys = &mut keys[..found.len()];
    let parses = job_checks::parse_checks::check_parses(given.parses, given.parse_text)?;
    candidates::order_candidates(candidates, keys);
    Ok(CheckedJob {
        given: GivenJob {
            inputs: given,
            candidates,
        },
        rules: accepted.rules,
        file: accepted.file,
        parses,
        keys,
    })
}
