// What matching one node, a job and the walk begin with: 1 to 22.
ghost use Rattle.std.specs.Prelude.{◌≡◌, ◌/◌, ◌≤◌, length, IfOk};
ghost use Rattle.errors.specs.Refusals.{in_turn};
ghost use Rattle.trees.specs.Given.{outcome_of};
ghost use Rattle.checks.specs.Given.{given_in, file_in};
ghost use Rattle.rule_paths.specs.Needs.{Roomy};
ghost use Rattle.rule_paths.specs.Accepted.{to_resolve};

use crate::{ResolvedRules, Tables};
use checks::Rules;
use errors::Refusal;
use facts::IndexTables;
use trees::{File, GivenFile};

// Rules and a file that were accepted.
#[derive(Drop)]
pub struct Accepted<'a, const N: usize> {
    pub rules: ResolvedRules<'a, N>,
    pub file: File<'a>,
}

// 1 to 22, and what was accepted.
#[tactic(auto, using(crate::proofs::AcceptedLaws::paths_refuse, crate::proofs::AcceptedLaws::all_pass))]
pub fn check_and_resolve<'a, const N: usize>(
    rules: Rules<'a>,
    file: GivenFile<'a>,
    tables: &mut Tables<N>,
    index: IndexTables<'a>,
) -> Result<Accepted<'a, N>, Refusal>
    requires room { Roomy N rules.pairs.words }
    requires index_len { length file.facts.now / 4 ≤ 16383 → length file.facts.now / 4 ≤ length index.entries.now }
    ensures value { outcome_of result ≡ in_turn (to_resolve rules.entry (given_in file.entry)) }
    ensures given { IfOk result (λ a. (a.rules ≡ rules.entry) × (file_in a.file ≡ given_in file.entry)) }
{
    let file = checks::check_given(&rules, file, index)?;
    let rules = ResolvedRules::new(rules, tables)?;
    Ok(Accepted { rules, file })
}
