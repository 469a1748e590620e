// Whether words are a well-formed tree over a text: 18, 19 and 20.
ghost use Rattle.std.specs.Prelude.{◌≡◌, ◌-◌, ◌≤◌, ◌<◌, ◌*◌, ◌/◌, leb, length, IfOk, IfErr, MatchOption};
ghost use Rattle.errors.specs.Refusals.{ok, err};
ghost use Rattle.syntax.specs.Parts.{span, rest_words};
ghost use Rattle.syntax.specs.Trees.{tiles, is_tree_of, depth};
ghost use Rattle.syntax.specs.Rows.{in_row, is_ranged, is_token_part, is_node_head, is_node_part, is_element, every, is_root};
ghost use Rattle.syntax.specs.Accessors.{rest};
ghost use Rattle.syntax.specs.Views.{elems_of};
ghost use Rattle.syntax.specs.Checks.{tree_outcome};

use errors::Refusal;
use syntax::kinds::{NODES, TOKENS};
use syntax::parts;
use syntax::parts::Part;
use syntax::trees::Tree;
use words::fields;
use words::fields::WordKind;

// What follows the first element; none where it is longer than the part.
// A token is passed without a look at its size, so that the next element need not wait for it.
fn rest(c: &[u32]) -> Option<&[u32]>
    ensures { MatchOption result (length c.now < span c.now * 3) (λ d. (span c.now * 3 ≤ length c.now) × (d.now ≡ rest_words c.now)) }
{
    if fields::is_token(c) {
        return c.get(3..);
    }
    let n = parts::span_of(c) * 3;
    if c.len() < n {
        return None;
    }
    Some(&c[n..])
}

// Whether siblings follow each other from one byte to another and use up the part.
#[tactic(auto, using(crate::proofs::RowLaws::row_on, crate::proofs::RowLaws::row_off, crate::proofs::RowLaws::row_cut, syntax::proofs::PartLaws::span_pos))]
fn are_in_row(part: &[u32], from: usize, to: usize) -> bool
    ensures { result ≡ in_row part.now from to }
{
    let mut c = part;
    let mut at = from;
    while let [_, _, _, ..] = c {
        if fields::start(c) != at {
            return false;
        }
        at = fields::end(c);
        let Some(behind) = rest(c) else {
            return false;
        };
        c = behind;
    }
    c.is_empty() && at == to
}

// Whether the words of a range have their kinds.
fn is_ranged(c: &[u32]) -> bool
    ensures { result ≡ is_ranged c.now }
{
    fields::has_kind(c, 1, WordKind::Start) && fields::has_kind(c, 2, WordKind::End)
}

// Whether a token has size 1 and a token's kind, and is not empty.
fn is_token_part(c: &[u32]) -> bool
    ensures { result ≡ is_token_part c.now }
{
    fields::size(c) == 1
        && TOKENS.contains(fields::syntax_kind(c))
        && fields::start(c) < fields::end(c)
}

// Whether a node's own words are in order.
fn is_node_head(c: &[u32]) -> bool
    ensures { result ≡ is_node_head c.now }
{
    fields::is_node(c)
        && 1 <= fields::size(c)
        && NODES.contains(fields::syntax_kind(c))
        && fields::start(c) <= fields::end(c)
}

// Whether an element is a node that its children tile.
fn is_node_part(c: &[u32]) -> bool
    ensures { result ≡ is_node_part c.now }
{
    is_node_head(c)
        && are_in_row(
            Part::new(c).children().words,
            fields::start(c),
            fields::end(c),
        )
}

// Whether an element is well-formed by itself.
#[tactic(auto, unfolding(syntax::specs::Rows::is_element))]
fn is_element(c: &[u32]) -> bool
    ensures { result ≡ is_element c.now }
{
    is_ranged(c)
        && if fields::is_token(c) {
            is_token_part(c)
        } else {
            is_node_part(c)
        }
}

// Whether every element is.
#[tactic(auto, using(crate::proofs::RowLaws::every_on, crate::proofs::RowLaws::every_short, syntax::proofs::PartLaws::slice_end))]
fn are_elements(words: &[u32]) -> bool
    ensures { result ≡ every words.now }
{
    let mut c = words;
    while let [_, _, _, behind @ ..] = c {
        if !is_element(c) {
            return false;
        }
        c = behind;
    }
    c.is_empty()
}

// Whether the first element is a node, holds all others and covers a text.
#[tactic(auto, unfolding(syntax::specs::Rows::is_root))]
fn is_root(c: &[u32], bytes: usize) -> bool
    ensures { result ≡ is_root bytes c.now }
{
    fields::is_node(c)
        && fields::size(c) * 3 == c.len()
        && fields::start(c) == 0
        && fields::end(c) == bytes
}

// Whether words within the limits are a well-formed tree over a text. Neither the stack nor the time grows with the depth.
#[tactic(auto, using(syntax::proofs::Exactly::tree_exactly))]
fn is_tree(words: &[u32], bytes: usize) -> bool
    requires words_len_bound { length words.now / 3 ≤ 16383 }
    requires bytes_bound { bytes ≤ 65535 }
    ensures { result ≡ is_tree_of tiles bytes words.now }
{
    is_root(words, bytes) && are_elements(words)
}

// What follows the first element. A token is passed as in `rest`.
#[tactic(auto, using(syntax::proofs::SiblingLaws::token_long, syntax::proofs::SiblingLaws::token_rest))]
fn behind_first(c: Part) -> Part
    ensures value { elems_of result ≡ rest (elems_of c.entry) }
    ensures shorter { length result.words.now ≤ length c.entry.words.now - 3 }
{
    if c.is_token() {
        return c.behind(1);
    }
    c.rest()
}

// Whether no element of a part is deeper than a number of levels. An element with no more below it than that is not looked into, and the
// stack grows with the levels alone.
#[tactic(auto, using(crate::proofs::DepthLaws::shallow_gone, crate::proofs::DepthLaws::shallow_zero, crate::proofs::DepthLaws::shallow_next, crate::proofs::DepthLaws::shallow_deep, crate::proofs::DepthLaws::shallow_few))]
fn is_shallow(part: Part, levels: usize) -> bool
    ensures { result ≡ leb (depth (elems_of part.entry)) levels }
{
    let mut c = part;
    while !c.is_empty() {
        if levels < parts::span_of(c.words) {
            if levels == 0 || !is_shallow(c.children(), levels - 1) {
                return false;
            }
        }
        c = behind_first(c);
    }
    true
}

// The text of a tree: how many bytes it has, and whether it is the one that it should be.
#[derive(Clone, Copy)]
pub struct TreeText {
    pub bytes: usize,
    pub is_right: bool,
}

// 18, 19 and 20 of a tree over a text; another text than the one it should be is 19.
#[tactic(auto, unfolding(errors::specs::Refusals::first_of))]
pub fn check_tree(words: &[u32], text: TreeText) -> Result<Tree<'_>, Refusal>
    ensures accepted { IfOk result (λ t. (t.words.now ≡ words.now) × (tree_outcome text.is_right text.bytes words.now ≡ ok)) }
    ensures refused { IfErr result (λ r. tree_outcome text.is_right text.bytes words.now ≡ err r) }
{
    if 16383 < words.len() / 3 || 65535 < text.bytes {
        return Err(Refusal::TreeTooLarge);
    }
    if !text.is_right || !is_tree(words, text.bytes) {
        return Err(Refusal::MalformedTree);
    }
    if !is_shallow(Part::new(words), 128) {
        return Err(Refusal::TreeTooDeep);
    }
    Ok(Tree::new(words))
}
