// A job's candidates, two words each: whether each names a node and a rule (25), whether a pair comes twice (26), and their order by node
// and then rule.
#![tactic(auto)]

ghost use Rattle.std.specs.Prelude.{◌≡◌, not, ◌≤◌, length};
ghost use Rattle.sorting.specs.Sorted.{sort};
ghost use Rattle.syntax.specs.Views.{tree_of};
ghost use Rattle.candidates.specs.Candidates.{candidate_at, candidates_of, candidate_count, is_named, any_bad, key_of, keys_of, has_equal_neighbours};

use syntax::kinds::NODES;
use syntax::trees::Tree;
use words::{fields, slices};

// The rule of a lone last word: no word is this number.
const MISSING_RULE: u64 = 0x1_0000_0000;

// How many candidates there are.
pub fn count_candidates(candidates: &[u32]) -> usize
    ensures { result ≡ candidate_count candidates.now }
{
    candidates.len().div_ceil(2)
}

// The rule of the candidate that a part begins with.
fn rule_of(candidate: &[u32]) -> u64
    ensures { (result ≡ (candidate_at candidate.now).rule) × (result ≤ 4294967296) }
{
    candidate.get(1).map_or(MISSING_RULE, |rule| *rule as u64)
}

// Whether the candidate that a part begins with names a node of the tree and a rule.
fn is_named(tree: Tree, candidate: &[u32], rules: usize) -> bool
    ensures { result ≡ is_named (tree_of tree.entry) rules (candidate_at candidate.now) }
{
    tree.is_node_at(fields::word(candidate, 0) as usize, NODES)
        & (rule_of(candidate) < (rules as u64))
}

// Whether every candidate names a node of the tree and a rule: 25, but for the range.
pub fn are_named(tree: Tree, candidates: &[u32], rules: usize) -> bool
    ensures { result ≡ not (any_bad (tree_of tree.entry) rules (candidates_of candidates.now)) }
{
    candidates
        .chunks(2)
        .all(|candidate| is_named(tree, candidate, rules))
}

// The key of the candidate that a part begins with.
fn key_of(candidate: &[u32]) -> u64
    ensures { result ≡ key_of (candidate_at candidate.now) }
{
    (fields::word(candidate, 0) as u64) * 16 + rule_of(candidate)
}

// The keys of candidates in rising order: by node and then rule.
pub fn order_candidates(candidates: &[u32], keys: &mut [u64])
    requires { length keys.old ≡ candidate_count candidates.now }
    ensures { keys.new ≡ sort (keys_of (candidates_of candidates.now)) }
{
    for (place, key) in keys.iter_mut().enumerate() {
        *key = key_of(slices::tail(candidates, 2 * place));
    }
    sorting::sort(keys);
}

// Whether two neighbours are equal: of keys in rising order, whether a pair comes twice (26).
pub fn is_repeated(keys: &[u64]) -> bool
    ensures { result ≡ has_equal_neighbours keys.now }
{
    keys.windows(2).any(|pair| pair[0] == pair[1])
}
