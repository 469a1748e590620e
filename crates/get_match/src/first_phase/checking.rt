// Whether a node can match.
ghost use Rattle.std.specs.Prelude.{◌≡◌, ◌≤◌, false, length};
ghost use Rattle.syntax.specs.Views.{elems_of};
ghost use Rattle.matcher.specs.Matcher.{matcher_of};
ghost use Rattle.get_match.specs.FirstPhase.{NodeFails, SiblingsFail, NodesCheck, KindCheck, TurnChecks};

use matcher::{Matcher, Siblings};
use syntax::kinds::{
    CALL_EXPR, Kinds, METHOD_CALL_EXPR, PATH, RECORD_EXPR_FIELD_LIST, TOKEN_TREE, TRIVIA,
};
use syntax::parts::Part;

// What two nodes come to: they cannot match, or cannot if their children cannot, or nothing is said of them.
#[derive(Clone, Copy)]
pub enum Check {
    Fails,
    Below,
    Passes,
}

// Whether the code's method call or call can match the pattern's call, whose path says it; else by kind.
#[tactic(auto, using(crate::proofs::FirstLaws::method_fails, crate::proofs::FirstLaws::call_below, crate::proofs::FirstLaws::kinds_fail, crate::proofs::FirstLaws::kind_says))]
fn check_nodes(x: &Matcher, p: Part, c: Part) -> Check
    requires { (3 ≤ length p.words.now) × (3 ≤ length c.words.now) }
    ensures { NodesCheck (matcher_of x.now) (elems_of p.entry) (elems_of c.entry) result }
{
    if x.slot_at(p.number).is_some() {
        return Check::Passes;
    }
    let is_call = x.call_at(p.number).is_some();
    if is_call & c.is_node_in(Kinds::one(METHOD_CALL_EXPR)) {
        if calls::same_function(x, p, c) {
            return Check::Passes;
        }
        return Check::Fails;
    }
    if is_call & c.is_node_in(Kinds::one(CALL_EXPR)) {
        return Check::Below;
    }
    if p.kind() == c.kind() {
        return check_by_kind(x, p, c);
    }
    Check::Fails
}

// Two nodes of one kind: a resolved path by what it refers to, record lists and token trees not at all.
#[tactic(auto, using(crate::proofs::FirstLaws::path_fails, crate::proofs::FirstLaws::kind_below))]
fn check_by_kind(x: &Matcher, p: Part, c: Part) -> Check
    requires { 3 ≤ length p.words.now }
    ensures { KindCheck (matcher_of x.now) (elems_of p.entry) (elems_of c.entry) result }
{
    let kind = c.kind();
    if (kind == RECORD_EXPR_FIELD_LIST) | (kind == TOKEN_TREE) {
        return Check::Passes;
    }
    let is_resolved = x.path_at(p.number).is_some();
    if (kind == PATH) & is_resolved {
        if calls::same_resolution(x, p, c) {
            return Check::Passes;
        }
        return Check::Fails;
    }
    Check::Below
}

// The first of the code's siblings: those behind it, or its children, are checked next. None where they cannot match.
#[tactic(auto, using(crate::proofs::TurnLaws::turn_trivia, crate::proofs::TurnLaws::turn_token, crate::proofs::TurnLaws::turn_token_fails, crate::proofs::TurnLaws::turn_absent, crate::proofs::TurnLaws::turn_node_fails, crate::proofs::TurnLaws::turn_below, crate::proofs::TurnLaws::turn_node))]
fn check_turn<'a>(x: &Matcher, p: Part<'a>, c: Part<'a>) -> Option<Siblings<'a>>
    requires { 3 ≤ length c.words.now }
    ensures { TurnChecks (matcher_of x.now) p.entry c.entry result }
{
    let q = p.skip_trivia();
    if c.is_token_in(TRIVIA) {
        return Some(Siblings { p: q, c: c.rest() });
    }
    if c.is_token() {
        return Some(Siblings {
            p: x.attempt_match_token(q, c)?,
            c: c.rest(),
        });
    }
    if !q.is_node() {
        return None;
    }
    match check_nodes(x, q, c) {
        Check::Fails => None,
        Check::Below => Some(Siblings {
            p: q.children(),
            c: c.children(),
        }),
        Check::Passes => Some(Siblings {
            p: q.rest(),
            c: c.rest(),
        }),
    }
}

// Whether siblings can match, by going along them and down.
#[tactic(auto, using(crate::proofs::TurnLaws::first_turn, crate::proofs::TurnLaws::next_turn, crate::proofs::TurnLaws::last_turn, crate::proofs::TurnLaws::end_fails))]
fn check_siblings(x: &Matcher, p: Part, c: Part) -> bool
    ensures { result ≡ false → SiblingsFail (matcher_of x.now) (elems_of p.entry) (elems_of c.entry) }
{
    let mut t = Siblings { p, c };
    while !t.c.is_empty() {
        let Some(next) = check_turn(x, t.p, t.c) else {
            return false;
        };
        t = next;
    }
    t.p.skip_trivia().is_empty()
}

// Whether a node can match the pattern's root.
#[tactic(auto, using(crate::proofs::TurnLaws::node_below))]
pub fn may_match(x: &Matcher, p: Part, c: Part) -> bool
    requires in_bounds { (3 ≤ length p.words.now) × (3 ≤ length c.words.now) }
    ensures { result ≡ false → NodeFails (matcher_of x.now) (elems_of p.entry) (elems_of c.entry) }
{
    match check_nodes(x, p, c) {
        Check::Fails => false,
        Check::Below => check_siblings(x, p.children(), c.children()),
        Check::Passes => true,
    }
}
