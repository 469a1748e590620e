// `attempt_match_token_tree` of docs/src/src/matching.rs.
ghost use Rattle.std.specs.Prelude.{◌≡◌, ◌≤◌, ◌<◌, length};
ghost use Rattle.captures.specs.Turns.{TurnOf, Steps};
ghost use Rattle.matcher.specs.Matcher.{matcher_of};
ghost use Rattle.token_trees.specs.TokenTrees.{TokensGive, RunGives, TokenTreeGives};

use crate::{comments, runs};
use captures::{SelfKind, State, Turn};
use matcher::Matcher;
use syntax::kinds::{ElementKind, TRIVIA};
use syntax::parts::Part;

// One turn at a placeholder, the first of the pattern's siblings: its run is bound.
#[tactic(auto, using(crate::proofs::TokenTreeLaws::no_subtree, crate::proofs::TokenTreeLaws::subtree, crate::proofs::TokenTreeLaws::subtree_fails, crate::proofs::TokenTreeLaws::run_stops, crate::proofs::TokenTreeLaws::run_ends))]
#[cycle(token_tree)]
fn run_turn<'a>(
    x: &Matcher,
    slot: usize,
    p: Part<'a>,
    c: Part<'a>,
    s: State,
    out: &mut [u8],
) -> Option<Turn<'a>>
    requires in_bounds { (slot < 8) × (3 ≤ length c.words.now) }
    ensures out_len_unchanged { length out.new ≡ length out.old }
    ensures steps { Steps p.entry c.entry result }
    ensures turn_of { TurnOf (TokensGive (matcher_of x.now)) (RunGives (matcher_of x.now) slot) p.entry c.entry s out.old result out.new }
{
    let run = runs::run_from(x, p.rest(), c);
    let rest = run.c.rest();
    let Some(kind) = run.stop else {
        return Some(Turn {
            p: run.p,
            c: rest,
            state: s.bind(slot, c, run.last, 0, SelfKind::Owned),
        });
    };
    let q = run.p.skip_trivia();
    let t = match kind {
        ElementKind::Node => attempt_match_token_tree(x, q, run.c, s, out)?,
        ElementKind::Token => s,
    };
    Some(Turn {
        p: q.rest(),
        c: rest,
        state: t.bind(slot, c, run.last, 0, SelfKind::Owned),
    })
}

// One turn: a placeholder's run, or the first of the code's siblings.
#[tactic(auto, using(crate::proofs::TokenTreeLaws::turn_run, crate::proofs::TokenTreeLaws::turn_trivia, crate::proofs::TokenTreeLaws::turn_token, crate::proofs::TokenTreeLaws::turn_node, crate::proofs::TokenTreeLaws::turn_token_stops, crate::proofs::TokenTreeLaws::turn_node_stops, crate::proofs::TokenTreeLaws::turn_other_stops))]
#[cycle(token_tree)]
fn token_turn<'a>(
    x: &Matcher,
    p: Part<'a>,
    c: Part<'a>,
    s: State,
    out: &mut [u8],
) -> Option<Turn<'a>>
    requires in_bounds { 3 ≤ length c.words.now }
    ensures out_len_unchanged { length out.new ≡ length out.old }
    ensures steps { Steps p.entry c.entry result }
    ensures turn_of { TurnOf (TokensGive (matcher_of x.now)) (TokensGive (matcher_of x.now)) p.entry c.entry s out.old result out.new }
{
    let q = p.skip_trivia();
    if let Some(slot) = x.placeholder(q) {
        return run_turn(x, slot, q, c, s, out);
    }
    if c.is_token_in(TRIVIA) {
        return Some(Turn {
            p: q,
            c: c.rest(),
            state: comments::record_ignored_comments(x, c, s, out),
        });
    }
    if c.is_token() {
        return Some(Turn {
            p: x.attempt_match_token(q, c)?,
            c: c.rest(),
            state: s,
        });
    }
    if !q.is_node() {
        return None;
    }
    Some(Turn {
        p: q.rest(),
        c: c.rest(),
        state: attempt_match_token_tree(x, q, c, s, out)?,
    })
}

// Matches two token trees.
#[tactic(auto, using(crate::proofs::TokenTreeLaws::tokens_done, crate::proofs::TokenTreeLaws::tokens_left, crate::proofs::TokenTreeLaws::children_left, captures::proofs::TurnLaws::goes_further, captures::proofs::TurnLaws::goes_end))]
#[cycle(token_tree)]
pub fn attempt_match_token_tree(
    x: &Matcher,
    p: Part,
    c: Part,
    s: State,
    out: &mut [u8],
) -> Option<State>
    requires { 3 ≤ length c.words.now }
    ensures out_len_unchanged { length out.new ≡ length out.old }
    ensures tree_gives { TokenTreeGives (matcher_of x.now) p.entry c.entry s out.old result out.new }
{
    let mut t = Turn {
        p: p.children(),
        c: c.children(),
        state: s,
    };
    while !t.c.is_empty() {
        t = token_turn(x, t.p, t.c, t.state, out)?;
    }
    if t.p.skip_trivia().is_empty() {
        return Some(t.state);
    }
    None
}
