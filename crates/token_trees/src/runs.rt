// How far a placeholder's run in a token tree goes.
ghost use Rattle.std.specs.Prelude.{◌≡◌, ◌≤◌, ◌<◌, length, IfSome};
ghost use Rattle.syntax.specs.Views.{elems_of, IsWithin};
ghost use Rattle.token_trees.specs.Runs.{is_stop, run, run_of};

use matcher::Matcher;
use matcher::token_matching::TokenText;
use syntax::kinds::ElementKind;
use syntax::parts::Part;
use words::fields;

// Whether a run ends at a stop, and which kind of element that is; the last element taken; and what is left of the pattern and of the code,
// from the stop on.
#[derive(Clone, Copy)]
pub struct Run<'a> {
    pub stop: Option<ElementKind>,
    pub last: Part<'a>,
    pub p: Part<'a>,
    pub c: Part<'a>,
}

// Whether the first of the code's siblings is, or begins with, the token that stops a run.
fn is_stop(x: &Matcher, stop: Part, c: Part) -> bool
    ensures { result ≡ is_stop x.now.rule.now x.now.file.now (elems_of stop.entry) (elems_of c.entry) }
{
    let first = c.first_token();
    if stop.is_empty() | first.is_empty() {
        return false;
    }
    TokenText::of(stop, x.rule).is_same_stop(TokenText::of(first, x.file))
}

// The run that begins with the first of the code's siblings, where the pattern goes on with some. A run stops where a stop is met, but for
// a subtree that meets no node of the pattern: that element is used up.
#[tactic(auto, using(crate::proofs::RunLaws::run_end, crate::proofs::RunLaws::stops_at_token, crate::proofs::RunLaws::stops_at_node, crate::proofs::RunLaws::uses_up, crate::proofs::RunLaws::goes_on, syntax::proofs::SiblingLaws::long_some, syntax::proofs::TreeLaws::elems_end))]
pub fn run_from<'a>(x: &Matcher, p: Part<'a>, c: Part<'a>) -> Run<'a>
    requires { 3 ≤ length c.words.now }
    ensures value { run_of result ≡ run x.now.rule.now x.now.file.now (elems_of p.entry) (elems_of c.entry) }
    ensures p_in_bounds { IsWithin result.p p.entry }
    ensures c_in_bounds { IsWithin result.c c.entry × (length result.c.words.now < length c.entry.words.now) }
    ensures last_in_bounds { IsWithin result.last c.entry × (3 ≤ length result.last.words.now) }
    ensures at_stop { IfSome result.stop (λ kind. 3 ≤ length result.c.words.now) }
{
    let stop = p.skip_trivia().first_token();
    let mut p = p;
    let mut last = c;
    for next in c.rest() {
        if is_stop(x, stop, next) {
            let q = p.skip_trivia();
            let kind = if fields::is_token(next.words) {
                ElementKind::Token
            } else {
                ElementKind::Node
            };
            if (kind == ElementKind::Token) | q.is_node() {
                return Run {
                    stop: Some(kind),
                    last,
                    p,
                    c: next,
                };
            }
            p = q.rest();
        }
        last = next;
    }
    Run {
        stop: None,
        last,
        p,
        c: last.none(),
    }
}
