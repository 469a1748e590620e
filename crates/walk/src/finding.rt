// The candidates of the walk that match: of one rule after the other, each made ready once.
ghost use Rattle.std.specs.Prelude.{◌++◌, ◌≤◌, ◌<◌};
ghost use Rattle.syntax.specs.Trees.{tree};
ghost use Rattle.checks.specs.Given.{file_in};
ghost use Rattle.rule_match.specs.RuleMatch.{attempt_of};
ghost use Rattle.walk_nodes.specs.WalkCandidates.{nodes_of, walk_candidates, accepted};
ghost use Rattle.walk_nodes.specs.Finds.{Finds};

use rule_match::preparing::{MatchTables, Prepared};
use rule_paths::ResolvedRules;
use trees::File;
use walk_nodes::find_nodes;
use walk_nodes::found::Found;
use words::texts::Range;

// With the rule of a number, behind the candidates that were found before; none where they are more than have room then.
#[tactic(auto, using(crate::proofs::RuleLaws::finds_none, crate::proofs::RuleLaws::finds_found))]
fn find_number<const N: usize>(
    rules: &ResolvedRules<'_, N>,
    file: &File<'_>,
    number: usize,
    range: Option<Range>,
    tables: &mut MatchTables<N>,
    found: &mut Found,
) -> Option<()>
    requires { number < 16 }
    ensures { Finds (found.old ++ accepted (attempt_of rules.now (file_in file.now) range) (nodes_of (tree file.now.tree.words.now) number)) result found.new }
{
    let Some(rule) = rules.rule(number) else {
        return Some(());
    };
    let prepared = Prepared::new(&rule, tables);
    find_nodes(
        &prepared.matcher(file),
        prepared.pattern(),
        prepared.template(),
        number as u32,
        range,
        found,
        &mut [],
    )
}

// The candidates of every node with each of the first rules that match, behind those that were found before; none where they are more than have
// room then.
#[tactic(auto, using(crate::proofs::RuleLaws::walk_starts, crate::proofs::RuleLaws::walk_goes_on, crate::proofs::RuleLaws::walk_many))]
pub fn find_all<const N: usize>(
    rules: &ResolvedRules<'_, N>,
    file: &File<'_>,
    count: usize,
    range: Option<Range>,
    tables: &mut MatchTables<N>,
    found: &mut Found,
) -> Option<()>
    requires { count ≤ 16 }
    ensures { Finds (found.old ++ accepted (attempt_of rules.now (file_in file.now) range) (walk_candidates (tree file.now.tree.words.now) count)) result found.new }
{
    for number in 0..count {
        find_number(rules, file, number, range, tables, found)?;
    }
    Some(())
}
