// The nodes that match a rule that was made ready.
#![tactic(auto)]

pub mod found; // found.rt: the candidates that were found

ghost use Rattle.std.specs.Prelude.{◌≡◌, ◌+◌, length, option_copied};
ghost use Rattle.syntax.specs.Views.{tree_of};
ghost use Rattle.matcher.specs.Matcher.{matcher_of};
ghost use Rattle.walk_nodes.specs.Finds.{IsMatch, FindsNodes};

use crate::found::Found;
use get_match::first_phase::kinds;
use get_match::get_match;
use matcher::Matcher;
use paths::Resolved;
use syntax::kinds::NODES;
use syntax::trees::Tree;
use words::texts::Range;

// Whether an element is a node that matches.
#[tactic(auto, using(crate::proofs::NodeLaws::no_node, crate::proofs::NodeLaws::node_tried))]
fn is_match(
    x: &Matcher,
    pattern: Tree,
    template: Option<&Resolved<'_>>,
    node: usize,
    range: Option<Range>,
    out: &mut [u8],
) -> bool
    ensures out_len_unchanged { length out.new ≡ length out.old }
    ensures value { IsMatch (matcher_of x.now) (length pattern.entry.words.now + length x.now.tree.words.now) (tree_of pattern.entry) (option_copied template.entry) range node result }
{
    if x.tree.is_node_at(node, NODES) {
        return get_match(x, pattern, template, node, range, out).is_some();
    }
    false
}

// Finds the nodes that match a rule, by its pattern and its template where it has one, behind the candidates that were found before; none where
// they are more than have room then. Nodes of kinds that the pattern's root cannot match are passed over.
#[tactic(auto, using(get_match::proofs::TryLaws::root_long, crate::proofs::NodeLaws::walk_many, crate::proofs::NodeLaws::walk_ends, syntax::proofs::FormedLaws::few))]
pub fn find_nodes(
    x: &Matcher,
    pattern: Tree,
    template: Option<&Resolved<'_>>,
    rule: u32,
    range: Option<Range>,
    found: &mut Found,
    out: &mut [u8],
) -> Option<()>
    ensures out_len_unchanged { length out.new ≡ length out.old }
    ensures finds { FindsNodes (matcher_of x.now) (length pattern.entry.words.now + length x.now.tree.words.now) (tree_of pattern.entry) (option_copied template.entry) range rule found.old result found.new }
{
    let fitting = kinds::kinds_of(x, pattern.root());
    let mut next = kinds::find(x.tree, 0, fitting);
    while let Some(node) = next {
        if is_match(x, pattern, template, node, range, out) {
            found.push(node as u32, rule)?;
        }
        next = kinds::find(x.tree, node + 1, fitting);
    }
    Some(())
}
