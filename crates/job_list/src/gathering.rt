// The rows of all candidates: of one rule after the other, each made ready once.
ghost use Rattle.std.specs.Prelude.{◌≡◌, true, false, ℕ, Some, option_map, ◌%◌, ◌/◌, ◌<◌, length, get_or};
ghost use Rattle.matcher.specs.FileFacts.{module_of};
ghost use Rattle.checks.specs.Given.{file_in, found_rule, is_node_of};
ghost use Rattle.rule_paths.specs.Needs.{paired};
ghost use Rattle.rule_match.specs.RuleMatch.{attempt_of};
ghost use Rattle.job_list.specs.Told.{row_of};
ghost use Rattle.job_list.specs.Gathered.{Gathers, Gathered};

use crate::match_rows;
use job_checks::CheckedJob;
use nester::Row;
use rule_match::preparing::{MatchTables, Prepared};

// The row of one candidate, with its rule made ready. Comments are not laid: there is no room for any.
#[tactic(auto, using(crate::proofs::GatherLaws::node_low, crate::proofs::GatherLaws::row_is))]
fn gather_one<const N: usize>(
    job: &CheckedJob<'_, N>,
    prepared: &Prepared<'_, N>,
    node: usize,
    number: usize,
) -> Row
    requires ready { Some prepared.now ≡ option_map (paired job.now.rules) (found_rule job.now.rules number) }
    requires is_node { is_node_of (file_in job.now.file) node ≡ true }
    requires number_bound { number < 16 }
    ensures { result ≡ row_of node number (module_of job.now.file.facts node) (attempt_of job.now.rules (file_in job.now.file) job.now.given.inputs.range node number) }
{
    let answer = rule_match::match_prepared(
        prepared,
        &job.file,
        node,
        job.given.inputs.range,
        &mut [],
    );
    match_rows::row_of(
        node,
        number,
        answer,
        match_rows::module_of(&job.file.facts, node),
    )
}

// The candidates of one rule that was made ready.
#[tactic(auto, using(crate::proofs::GatherLaws::gathers_none, crate::proofs::GatherLaws::gathers_other, crate::proofs::GatherLaws::gathers_more))]
fn gather_prepared<const N: usize>(
    job: &CheckedJob<'_, N>,
    prepared: &Prepared<'_, N>,
    number: usize,
    rows: &mut [Row],
)
    requires ready { Some prepared.now ≡ option_map (paired job.now.rules) (found_rule job.now.rules number) }
    requires number_bound { number < 16 }
    requires rows_len { length rows.old ≡ length job.now.keys.now }
    ensures { Gathers number (attempt_of job.now.rules (file_in job.now.file) job.now.given.inputs.range) (module_of job.now.file.facts) (length job.now.keys.now) job.now.keys.now rows.old rows.new }
{
    for (place, &key) in job.keys.iter().enumerate() {
        if key % 16 == number as u64 {
            rows[place] = gather_one(job, prepared, (key / 16) as usize, number);
        }
    }
}

// Whether a key is of a rule's number.
fn is_named(keys: &[u64], number: usize) -> bool
    ensures { result ≡ false → (i : ℕ) → i < length keys.now → (get_or keys.now i 0 % 16 ≡ number → ⊥) }
{
    keys.iter().any(|key| key % 16 == number as u64)
}

// The candidates of the rule of a number. A rule of which there are none is not made ready.
#[tactic(auto, using(crate::proofs::GatherLaws::gathers_unnamed))]
fn gather_number<const N: usize>(
    job: &CheckedJob<'_, N>,
    number: usize,
    tables: &mut MatchTables<N>,
    rows: &mut [Row],
)
    requires number_bound { number < 16 }
    requires rows_len { length rows.old ≡ length job.now.keys.now }
    ensures { Gathers number (attempt_of job.now.rules (file_in job.now.file) job.now.given.inputs.range) (module_of job.now.file.facts) (length job.now.keys.now) job.now.keys.now rows.old rows.new }
{
    if !is_named(job.keys, number) {
        return;
    }
    let Some(rule) = job.rules.rule(number) else {
        return;
    };
    let prepared = Prepared::new(&rule, tables);
    gather_prepared(job, &prepared, number, rows);
}

// The row of each candidate of a job, by its key.
#[tactic(auto, using(crate::proofs::GatherLaws::told_more))]
pub fn gather_all<const N: usize>(
    job: &CheckedJob<'_, N>,
    tables: &mut MatchTables<N>,
    rows: &mut [Row],
)
    requires { length rows.old ≡ length job.now.keys.now }
    ensures { Gathered job.now.rules (file_in job.now.file) job.now.given.inputs.range job.now.keys.now rows.new }
{
    for number in 0..job.rules.count() {
        gather_number(job, number, tables, rows);
    }
}
