// A well-formed tree, and its elements by their numbers.
ghost use Rattle.std.specs.Prelude.{◌≡◌, true, ◌+◌, ◌*◌, ◌≤◌, ◌<◌, length, drop};
ghost use Rattle.syntax.specs.Checks.{is_well_formed, WellFormed};

use crate::kinds::{Kinds, TOKENS};
use crate::parts;
use crate::parts::Part;
use words::{fields, slices};

// Words that were accepted as a tree.
#[derive(Clone, Copy)]
pub struct Tree<'a> {
    pub words: &'a [u32],
    pub ghost formed: { is_well_formed words.now ≡ true },
}

// Where an element stands: how many ancestors it has, itself counted, and its parent's number, its own where it has none.
#[derive(Clone, Copy)]
pub struct Standing {
    pub depth: usize,
    pub parent: usize,
}

impl<'a> Tree<'a> {
    ghost use Rattle.syntax.specs.Trees.{size};
    ghost use Rattle.syntax.specs.Accessors.{children, node_in, token_in, element_at, by_itself, standing};
    ghost use Rattle.syntax.specs.Views.{elems_of, tree_of};

    // The tree that words are.
    #[tactic(auto, using(crate::proofs::FormedLaws::is_formed))]
    pub fn new(words: &'a [u32]) -> Tree<'a>
        requires { WellFormed words.now }
        ensures { result.words.now ≡ words.now }
    {
        Tree { words }
    }

    // How many elements it has.
    #[tactic(auto, using(crate::proofs::FormedLaws::whole, crate::proofs::FormedLaws::few, crate::proofs::ViewLaws::size_is))]
    pub fn len(self) -> usize
        ensures value { result ≡ size (tree_of self.entry) }
        ensures by_words { result * 3 ≡ length self.entry.words.now }
        ensures result_in_bounds { result ≤ 16383 }
    {
        self.words.len() / 3
    }

    // The root.
    pub fn root(self) -> Part<'a>
        ensures value { elems_of result ≡ tree_of self.entry }
        ensures words_value { result.words.now ≡ self.entry.words.now }
        ensures result_number { result.number ≡ 0 }
    {
        Part::new(self.words)
    }

    // The words from the element of a number on; what follows it may be no sibling of it. Empty where there is none.
    #[tactic(auto, using(crate::proofs::ViewLaws::at_is, crate::proofs::FormedLaws::formed_is))]
    pub fn at(self, number: usize) -> Part<'a>
        ensures value { by_itself (elems_of result) ≡ by_itself (element_at number (tree_of self.entry)) }
        ensures words_value { result.words.now ≡ drop (number * 3) self.entry.words.now }
        ensures result_number { number * 3 < length self.entry.words.now → result.number ≡ number }
        ensures result_in_bounds { result.number * 3 + length result.words.now ≡ length self.entry.words.now }
    {
        self.root().behind(number.min(self.len()))
    }

    // The element of a number by itself; empty where there is none.
    pub fn element(self, number: usize) -> Part<'a>
        ensures value { elems_of result ≡ by_itself (element_at number (tree_of self.entry)) }
        ensures result_in_bounds { result.number * 3 + length result.words.now ≤ length self.entry.words.now }
    {
        self.at(number).by_itself()
    }

    // Whether the element of a number is a node of some kinds.
    #[tactic(auto, using(crate::proofs::ViewLaws::node_itself))]
    pub fn is_node_at(self, number: usize, kinds: Kinds) -> bool
        ensures { result ≡ node_in kinds.low kinds.high (element_at number (tree_of self.entry)) }
    {
        self.at(number).is_node_in(kinds)
    }

    // Whether a number is that of a token below the element of another.
    #[tactic(auto, using(crate::proofs::ViewLaws::token_below, crate::proofs::ViewLaws::below_no_node, crate::proofs::ViewLaws::not_below))]
    pub fn is_token_within(self, number: usize, inner: usize) -> bool
        ensures { result ≡ token_in 1 1023 (element_at inner (children (element_at number (tree_of self.entry)))) }
    {
        let c = self.at(number);
        if fields::is_node(c.words) {
            if (number < inner) & (inner < number + fields::size(c.words)) {
                return self.at(inner).is_token_in(TOKENS);
            }
        }
        false
    }

    // Where the element of a number stands; none has no ancestors. It goes by siblings and down, never back.
    pub fn standing(self, number: usize) -> Standing
        ensures { result ≡ standing number (tree_of self.entry) }
    {
        let mut depth: usize = 1;
        let mut parent = number;
        if self.len() <= number {
            return Standing { depth: 0, parent };
        }
        let mut at: usize = 0;
        while at < number {
            let next = at + parts::span_of(slices::tail(self.words, at * 3));
            if next <= number {
                at = next;
            } else {
                parent = at;
                depth += 1;
                at += 1;
            }
        }
        Standing { depth, parent }
    }
}
