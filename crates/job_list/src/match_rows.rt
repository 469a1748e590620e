// The row of one candidate.
ghost use Rattle.std.specs.Prelude.{◌≡◌, List, [], ℕ, ◌<◌};
ghost use Rattle.captures.specs.Attempts.{Attempt};
ghost use Rattle.captures.specs.Effects.{nothing, Gives};
ghost use Rattle.matcher.specs.FileFacts.{module_of};
ghost use Rattle.job_list.specs.Told.{row_of};

use captures::State;
use facts::{Facts, Sort};
use nester::{Nesting, Row};

// The row of a candidate, by the answer of its attempt, which was made with no room for comments: so the place behind them is past it exactly
// where there are some.
pub fn row_of(node: usize, rule: usize, answer: Option<State>, module: u32) -> Row
    requires { (node < 16384) × (rule < 16) }
    ensures { (a : Attempt) (end : List ℕ) → Gives a nothing [] answer end → result ≡ row_of node rule «module» a }
{
    let unmatched = Row {
        node: node as u16,
        rule: rule as u32,
        has_comments: false,
        state: Nesting::NoMatch,
        end: 0,
        module,
        bindings: [None; 8],
    };
    match answer {
        None => unmatched,
        Some(state) => {
            let bindings = state.bindings;
            Row {
                has_comments: 0 < state.noted,
                state: Nesting::NotKept,
                bindings,
                ..unmatched
            }
        }
    }
}

// The module of a node; 0 where it has none.
pub fn module_of(facts: &Facts, node: usize) -> u32
    ensures { result ≡ module_of facts.now node }
{
    facts.first(Sort::Node, node).map_or(0, |fact| fact.first)
}
