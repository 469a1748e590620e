// `get_match` of docs/src/src/matching.rs on input that was checked: one node of a file with one rule that was made ready.
#![tactic(auto)]

pub mod first_phase; // first_phase.rt: cheap checks, which say soon that a node cannot match
pub mod templates; // templates.rt: whether the template's paths can be rendered for a module

ghost use Rattle.std.specs.Prelude.{◌≡◌, true, ◌+◌, length, option_copied};
ghost use Rattle.syntax.specs.Accessors.{element_at, by_itself, node_in};
ghost use Rattle.syntax.specs.Views.{elems_of, tree_of};
ghost use Rattle.matcher.specs.Matcher.{matcher_of};
ghost use Rattle.get_match.specs.Templates.{renders_given};
ghost use Rattle.get_match.specs.GetMatch.{is_within, TryGives};

use crate::first_phase::checking;
use captures::State;
use matcher::Matcher;
use matching::attempt_match;
use paths::Resolved;
use syntax::parts::Part;
use syntax::trees::Tree;
use words::texts::Range;

// Whether the element that a part begins with is inside the range.
fn is_within(range: Option<Range>, c: Part) -> bool
    ensures { result ≡ is_within range (elems_of c.entry) }
{
    let own = c.range();
    range.is_none_or(|r| (r.start <= own.start) & (own.end <= r.end))
}

// Matches one node of the file with a rule: its pattern, and its template's tree where it has one.
#[tactic(auto, using(crate::proofs::TryLaws::root_long, crate::proofs::TryLaws::node_long, crate::proofs::TryLaws::outside, crate::proofs::TryLaws::refused, crate::proofs::TryLaws::fails, crate::proofs::TryLaws::unrendered, crate::proofs::TryLaws::matches))]
pub fn get_match(
    x: &Matcher,
    pattern: Tree,
    template: Option<&Resolved<'_>>,
    node: usize,
    range: Option<Range>,
    out: &mut [u8],
) -> Option<State>
    requires is_node { node_in 1 4095 (element_at node (tree_of x.now.tree)) ≡ true }
    ensures out_len_unchanged { length out.new ≡ length out.old }
    ensures gives { TryGives (matcher_of x.now) (length pattern.entry.words.now + length x.now.tree.words.now) (tree_of pattern.entry) range (by_itself (element_at node (tree_of x.now.tree))) (renders_given (option_copied template.entry) x.now.facts.now node) out.old result out.new }
{
    let p = pattern.root();
    let c = x.tree.element(node);
    if !is_within(range, c) {
        return None;
    }
    if !checking::may_match(x, p, c) {
        return None;
    }
    let state = attempt_match::node(x, p, c, State::new(), out)?;
    if let Some(resolved) = template {
        if !templates::render_template_paths(resolved, x.facts, node) {
            return None;
        }
    }
    Some(state)
}
