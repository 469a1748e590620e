// The checks of a job, in document 01's order: 1 to 15, 18 to 21, 17, 22, 24 to 28. The tables are lent.
ghost use Rattle.std.specs.Prelude.{◌≡◌, ◌≤◌, ◌/◌, length, IfOk};
ghost use Rattle.trees.specs.Given.{outcome_of};
ghost use Rattle.rule_paths.specs.Needs.{Roomy};
ghost use Rattle.job_checks.specs.Checks.{job_in, job_outcome};

use errors::Refusal;
use facts::IndexTables;
use job_checks::{CheckedJob, GivenJob};
use rule_paths::Tables;

// All of them in turn, and the job that passed them.
#[tactic(auto, using(crate::proofs::CheckingLaws::checks_refuse, crate::proofs::CheckingLaws::asked_decides))]
pub fn check_job<'a, const N: usize>(
    given: GivenJob<'a>,
    tables: &mut Tables<N>,
    index: IndexTables<'a>,
    keys: &'a mut [u64; 1024],
) -> Result<CheckedJob<'a, N>, Refusal>
    requires room { Roomy N given.inputs.words.now }
    requires index_len { length given.inputs.file.facts.now / 4 ≤ 16383 → length given.inputs.file.facts.now / 4 ≤ length index.entries.now }
    ensures value { outcome_of result ≡ job_outcome (job_in given.entry) }
    ensures given_is { IfOk result (λ job. job_in job.given ≡ job_in given.entry) }
{
    let rules = given.inputs.rules();
    let accepted = rule_paths::accepted::check_and_resolve(
        rules,
        given.inputs.file,
        tables,
        index,
    )?;
    let asked = job_checks::check_asked(&given, accepted.file.tree, keys)?;
    Ok(CheckedJob::new(given, accepted.rules, accepted.file, asked))
}
