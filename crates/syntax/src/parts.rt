// A part of a tree's words is siblings in turn. Every method but `behind`, which asks for room, is total: on any words it
// goes where the decoder goes.
ghost use Rattle.std.specs.Prelude.{◌≡◌, ℕ, ◌+◌, ◌-◌, ◌*◌, ◌≤◌, length, drop, not, ltb, []};
ghost use Rattle.syntax.specs.Parts.{span, child_words, rest_words, end_of_first};

use crate::kinds::{EXPRESSIONS, ElementKind, IDENT, Kinds, NODES, TOKENS, TRIVIA};
use words::fields;
use words::texts::Range;

// Siblings in turn, each with all below it: the words from the first one on, and its number.
#[derive(Clone, Copy)]
pub struct Part<'a> {
    pub words: &'a [u32],
    pub number: usize,
    pub ghost counted: { number * 3 + length words.now ≤ 9223372036854775807 },
}

// How many elements the first one has with all below it, by its words.
pub fn span_of(c: &[u32]) -> usize
    ensures { result ≡ span c.now }
{
    if fields::is_token(c) {
        return 1;
    }
    fields::size(c).max(1)
}

// Where the words of the first element with all below it end.
fn end_of_first(c: &[u32]) -> usize
    ensures { result ≡ end_of_first c.now }
{
    (span_of(c) * 3).min(c.len())
}

impl<'a> Part<'a> {
    ghost use Rattle.syntax.specs.Trees.{size, tree};
    ghost use Rattle.syntax.specs.Accessors.{children, rest, range_of, text_of, some, node_in, token_in, has_kind, has_element, find_node, first_child, find_expression, first_token, only_ident, by_itself};
    ghost use Rattle.syntax.specs.Siblings.{kind_of, is_a_node, is_a_token, skip_tokens, skip_trivia};
    ghost use Rattle.syntax.specs.Views.{elems_of, IsWithin};

    // A whole list of words.
    pub fn new(words: &'a [u32]) -> Part<'a>
        ensures value { elems_of result ≡ tree words.now }
        ensures words_value { result.words.now ≡ words.now }
        ensures result_number { result.number ≡ 0 }
    {
        Part { words, number: 0 }
    }

    // No siblings, where these stand.
    pub fn none(self) -> Part<'a>
        ensures words_value { result.words.now ≡ [] }
        ensures result_in_bounds { IsWithin result self.entry }
    {
        Part {
            words: &self.words[..0],
            number: self.number,
        }
    }

    // Whether there are no siblings.
    #[tactic(auto, using(crate::proofs::ViewLaws::empty_is))]
    pub fn is_empty(self) -> bool
        ensures value { result ≡ not (some (elems_of self.entry)) }
        ensures by_length { result ≡ ltb (length self.entry.words.now) 3 }
    {
        self.words.len() < 3
    }

    // How many elements the first one is, with all below it; 0 where there is none.
    #[tactic(auto, using(crate::proofs::ViewLaws::width_is))]
    pub fn width(self) -> usize
        ensures value { result ≡ size (by_itself (elems_of self.entry)) }
        ensures result_in_bounds { result * 3 ≤ length self.entry.words.now }
    {
        end_of_first(self.words) / 3
    }

    // The part behind some elements.
    pub fn behind(self, n: usize) -> Part<'a>
        requires { n * 3 ≤ length self.words.now }
        ensures words_value { result.words.now ≡ drop (n * 3) self.entry.words.now }
        ensures result_number { result.number ≡ self.entry.number + n }
    {
        Part {
            words: &self.words[n * 3..],
            number: self.number + n,
        }
    }

    // The first element's children.
    #[tactic(auto, using(crate::proofs::ViewLaws::child_end, crate::proofs::ViewLaws::children_end, crate::proofs::TreeLaws::elems_end, crate::proofs::PartLaws::span_pos))]
    pub fn children(self) -> Part<'a>
        ensures value { elems_of result ≡ children (elems_of self.entry) }
        ensures words_value { result.words.now ≡ child_words self.entry.words.now }
        ensures result_in_bounds { IsWithin result self.entry }
        ensures shorter { length result.words.now ≤ length self.entry.words.now - 3 }
    {
        if self.words.len() < 3 {
            return self.none();
        }
        Part {
            words: &self.words[3..end_of_first(self.words)],
            number: self.number + 1,
        }
    }

    // What follows the first element.
    #[tactic(auto, using(crate::proofs::ViewLaws::rest_there, crate::proofs::ViewLaws::rest_over, crate::proofs::ViewLaws::drop_over, crate::proofs::PartLaws::span_pos, crate::proofs::PartLaws::length_rest, crate::proofs::TreeLaws::elems_end))]
    pub fn rest(self) -> Part<'a>
        ensures value { elems_of result ≡ rest (elems_of self.entry) }
        ensures words_value { result.words.now ≡ rest_words self.entry.words.now }
        ensures result_in_bounds { IsWithin result self.entry }
        ensures shorter { length result.words.now ≤ length self.entry.words.now - 3 }
    {
        let span = span_of(self.words);
        if self.words.len() < span * 3 {
            return self.none();
        }
        self.behind(span)
    }

    // The first element without what follows it.
    #[tactic(auto, using(crate::proofs::ViewLaws::itself_end))]
    pub fn by_itself(self) -> Part<'a>
        ensures value { elems_of result ≡ by_itself (elems_of self.entry) }
        ensures result_in_bounds { IsWithin result self.entry }
    {
        Part {
            words: &self.words[..end_of_first(self.words)],
            number: self.number,
        }
    }

    // The syntax kind of the first element; 0 where there is none.
    #[tactic(auto, using(crate::proofs::ViewLaws::kind_there, crate::proofs::ViewLaws::kind_none))]
    pub fn kind(self) -> u32
        ensures { result ≡ kind_of (elems_of self.entry) }
    {
        if self.is_empty() {
            return 0;
        }
        fields::syntax_kind(self.words)
    }

    // The range of the first element.
    #[tactic(auto, using(crate::proofs::ViewLaws::range_there, crate::proofs::TreeLaws::elems_end))]
    pub fn range(self) -> Range
        ensures { result ≡ range_of (elems_of self.entry) }
    {
        if self.is_empty() {
            return Range::default();
        }
        Range {
            start: fields::start(self.words),
            end: fields::end(self.words),
        }
    }

    // Its text, of the text that it is in; none where it has no range there.
    pub fn text<'t>(self, text: &'t [u8]) -> &'t [u8]
        ensures { result.now ≡ text_of text.now (elems_of self.entry) }
    {
        self.range().of(text)
    }

    // Whether the first element is a node of some kinds.
    #[tactic(auto, using(crate::proofs::ViewLaws::node_is))]
    pub fn is_node_in(self, kinds: Kinds) -> bool
        ensures { result ≡ node_in kinds.low kinds.high (elems_of self.entry) }
    {
        !self.is_empty()
            & !fields::is_token(self.words)
            & kinds.contains(fields::syntax_kind(self.words))
    }

    // Whether it is a token of some kinds.
    #[tactic(auto, using(crate::proofs::ViewLaws::token_is))]
    pub fn is_token_in(self, kinds: Kinds) -> bool
        ensures { result ≡ token_in kinds.low kinds.high (elems_of self.entry) }
    {
        !self.is_empty()
            & fields::is_token(self.words)
            & kinds.contains(fields::syntax_kind(self.words))
    }

    // Whether it is a node, or a token, of a kind.
    fn has_kind(self, element: ElementKind, kind: u32) -> bool
        ensures { result ≡ has_kind element kind (elems_of self.entry) }
    {
        match element {
            ElementKind::Node => self.is_node_in(Kinds::one(kind)),
            ElementKind::Token => self.is_token_in(Kinds::one(kind)),
        }
    }

    // Whether the first element is a node.
    pub fn is_node(self) -> bool
        ensures { result ≡ is_a_node (elems_of self.entry) }
    {
        self.is_node_in(NODES)
    }

    // Whether it is a token.
    pub fn is_token(self) -> bool
        ensures { result ≡ is_a_token (elems_of self.entry) }
    {
        self.is_token_in(TOKENS)
    }

    // Whether a node, or a token, of a kind is among siblings or below them. The stack grows with the depth alone.
    #[tactic(auto, using(crate::proofs::AccessorLaws::has_here, crate::proofs::AccessorLaws::has_below, crate::proofs::AccessorLaws::has_further, crate::proofs::AccessorLaws::has_gone))]
    pub fn contains(self, element: ElementKind, kind: u32) -> bool
        ensures { result ≡ has_element element kind (elems_of self.entry) }
    {
        for c in self {
            if c.has_kind(element, kind) {
                return true;
            }
            if c.children().contains(element, kind) {
                return true;
            }
        }
        false
    }

    // The first node of some kinds among siblings, with what follows it.
    #[tactic(auto, using(crate::proofs::AccessorLaws::find_here, crate::proofs::AccessorLaws::find_rest, crate::proofs::AccessorLaws::find_gone, crate::proofs::TreeLaws::elems_end))]
    pub fn find_node(self, kinds: Kinds) -> Part<'a>
        ensures value { elems_of result ≡ find_node kinds.low kinds.high (elems_of self.entry) }
        ensures result_in_bounds { IsWithin result self.entry }
    {
        for c in self {
            if c.is_node_in(kinds) {
                return c;
            }
        }
        self.none()
    }

    // The first child of a kind.
    pub fn first_child(self, kind: u32) -> Part<'a>
        ensures value { elems_of result ≡ first_child kind (elems_of self.entry) }
        ensures result_in_bounds { IsWithin result self.entry }
        ensures shorter { length result.words.now ≤ length self.entry.words.now - 3 }
    {
        self.children().find_node(Kinds::one(kind))
    }

    // The first expression among siblings.
    pub fn find_expression(self) -> Part<'a>
        ensures value { elems_of result ≡ find_expression (elems_of self.entry) }
        ensures result_in_bounds { IsWithin result self.entry }
    {
        self.find_node(EXPRESSIONS)
    }

    // The first token below the first element, or itself; empty where there is none.
    #[tactic(auto, using(crate::proofs::AccessorLaws::first_here, crate::proofs::AccessorLaws::first_below, crate::proofs::AccessorLaws::first_gone))]
    pub fn first_token(self) -> Part<'a>
        ensures value { elems_of result ≡ first_token (elems_of self.entry) }
        ensures result_in_bounds { IsWithin result self.entry }
    {
        let mut c = self;
        while !c.is_empty() {
            if fields::is_token(c.words) {
                return c;
            }
            c = c.children();
        }
        c
    }

    // The lone IDENT that the first element is or holds; empty where there is none.
    #[tactic(auto, using(crate::proofs::AccessorLaws::ident_here, crate::proofs::AccessorLaws::ident_other, crate::proofs::AccessorLaws::ident_below, crate::proofs::AccessorLaws::ident_many, crate::proofs::AccessorLaws::ident_gone, crate::proofs::TreeLaws::elems_end, crate::proofs::ViewLaws::kind_there))]
    pub fn only_ident(self) -> Part<'a>
        ensures value { elems_of result ≡ only_ident (elems_of self.entry) }
        ensures result_in_bounds { IsWithin result self.entry }
    {
        let mut c = self;
        while !c.is_empty() {
            if fields::is_token(c.words) {
                if c.kind() == IDENT {
                    return c;
                }
                return c.none();
            }
            c = c.children();
            if !c.rest().is_empty() {
                return c.none();
            }
        }
        c
    }

    // What is left behind the tokens of some kinds that siblings begin with. A token is passed without a look at its size, so that the next
    // one need not wait for it.
    #[tactic(auto, using(crate::proofs::SiblingLaws::skip_here, crate::proofs::SiblingLaws::skip_next, crate::proofs::SiblingLaws::token_long, crate::proofs::SiblingLaws::token_rest))]
    pub fn skip_tokens(self, kinds: Kinds) -> Part<'a>
        ensures value { elems_of result ≡ skip_tokens kinds.low kinds.high (elems_of self.entry) }
        ensures result_in_bounds { IsWithin result self.entry }
    {
        let mut c = self;
        while c.is_token_in(kinds) {
            c = c.behind(1);
        }
        c
    }

    // What is left behind the trivia that they begin with.
    pub fn skip_trivia(self) -> Part<'a>
        ensures value { elems_of result ≡ skip_trivia (elems_of self.entry) }
        ensures result_in_bounds { IsWithin result self.entry }
    {
        self.skip_tokens(TRIVIA)
    }
}

// Siblings one by one, each with what follows it.
impl<'a> Iterator for Part<'a> {
    ghost use Rattle.std.specs.Iterator.{at_most};
    ghost use Rattle.syntax.specs.Views.{GivesSibling};

    type Item = Part<'a>;

    ghost next_gives = { GivesSibling };

    ghost remaining = { λ s. at_most (length s.words.now) };

    fn next(&mut self) -> Option<Part<'a>> {
        let first = *self;
        if first.is_empty() {
            return None;
        }
        *self = first.rest();
        Some(first)
    }
}
