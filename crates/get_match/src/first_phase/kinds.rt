// The kinds of node that a pattern's root can match.
ghost use Rattle.std.specs.Prelude.{◌≡◌, ℕ, ◌+◌, ◌/◌, ◌<◌, ◌≤◌, true, false, length, IfSome, unwrap_or};
ghost use Rattle.syntax.specs.Accessors.{node_in, element_at};
ghost use Rattle.syntax.specs.Views.{elems_of, tree_of};
ghost use Rattle.matcher.specs.Matcher.{matcher_of};
ghost use Rattle.get_match.specs.FirstPhase.{HoldAll};

use matcher::Matcher;
use std::num::{wrapping_add_u32, wrapping_sub_u32};
use syntax::kinds::{CALL_EXPR, Kinds, METHOD_CALL_EXPR, NODES};
use syntax::parts::Part;
use syntax::trees::Tree;
use words::slices;

// Those that hold all that a pattern's root can match: any, where it is a placeholder, the kinds of calls too, where it is a call, and its own.
#[tactic(auto, using(crate::proofs::FirstLaws::hold_any, crate::proofs::FirstLaws::hold_calls, crate::proofs::FirstLaws::hold_own))]
pub fn kinds_of(x: &Matcher, p: Part) -> Kinds
    requires { 3 ≤ length p.words.now }
    ensures { HoldAll (matcher_of x.now) (elems_of p.entry) result }
{
    if x.slot_at(p.number).is_some() {
        return NODES;
    }
    let own = p.kind();
    if x.call_at(p.number).is_some() {
        return Kinds {
            low: own.min(CALL_EXPR),
            high: own.max(METHOD_CALL_EXPR),
        };
    }
    Kinds::one(own)
}

// Whether a head is that of a node of one of the kinds, in one test: it holds the word's kind, 1, right above the node's.
fn is_head(head: u32, kinds: Kinds) -> bool
    ensures { (k : ℕ) → head / 65536 ≡ 4096 + k → k < 4096 → kinds.low ≤ k → k ≤ kinds.high → result ≡ true }
{
    let first = wrapping_add_u32(4096, kinds.low);
    wrapping_sub_u32(head / 65536, first) <= wrapping_sub_u32(kinds.high, kinds.low)
}

// The number of the first node of one of the kinds, from a number on.
pub fn find(tree: Tree, from: usize, kinds: Kinds) -> Option<usize>
    requires { from ≤ length tree.words.now / 3 }
    ensures in_bounds { IfSome result (λ e. (from ≤ e) × (e < length tree.entry.words.now / 3)) }
    ensures passed { (e : ℕ) → from ≤ e → e < unwrap_or result (length tree.entry.words.now / 3) → node_in kinds.low kinds.high (element_at e (tree_of tree.entry)) ≡ false }
{
    let mut c = slices::tail(tree.words, from * 3);
    let mut e = from;
    while let [head, _, _, behind @ ..] = c {
        if is_head(*head, kinds) {
            return Some(e);
        }
        c = behind;
        e += 1;
    }
    None
}
