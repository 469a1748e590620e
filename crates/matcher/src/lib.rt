// What matching looks at beside the two nodes.
#![tactic(auto)]

pub mod file_facts; // file_facts.rt: what the file's facts say
pub mod marks; // marks.rt: what a rule says of its pattern's elements and of its placeholders
pub mod token_matching; // token_matching.rt: when two tokens agree, and `attempt_match_token`

ghost use Rattle.std.specs.Prelude.{◌≡◌, ◌<◌, IfSome};
ghost use Rattle.syntax.specs.Views.{elems_of};
ghost use Rattle.matcher.specs.Matcher.{matcher_of, placeholder_of, has_placeholder_name};

use facts::{Call, Facts};
use marks::{Limit, Mark};
use syntax::parts::Part;
use syntax::trees::Tree;
use token_matching::Skip;

// Siblings of the pattern, and of the code, that are matched with each other.
#[derive(Clone, Copy)]
pub struct Siblings<'a> {
    pub p: Part<'a>,
    pub c: Part<'a>,
}

// The rule's text, the marks of its pattern's elements and the limits of its placeholders; the file's text, tree and facts; and the
// separators that may stand, or be left out, right before a closer.
#[derive(Clone, Copy)]
pub struct Matcher<'a> {
    pub rule: &'a [u8],
    pub marks: &'a [Mark],
    pub limits: [Limit; 8],
    pub file: &'a [u8],
    pub tree: Tree<'a>,
    pub facts: &'a Facts<'a>,
    pub sheet: &'a [Skip],
}

impl<'a> Matcher<'a> {
    // Which placeholder an element of the pattern is.
    pub fn slot_at(&self, element: usize) -> Option<usize>
        ensures value { result ≡ (matcher_of self.now).slot_at element }
        ensures in_bounds { IfSome result (λ slot. slot < 8) }
    {
        self.marks.get(element)?.placeholder()
    }

    // What it resolves to as a path.
    pub fn path_at(&self, element: usize) -> Option<u32>
        ensures { result ≡ (matcher_of self.now).path_at element }
    {
        self.marks.get(element)?.path()
    }

    // What it is as a call that UFCS may match.
    pub fn call_at(&self, element: usize) -> Option<Call>
        ensures { result ≡ (matcher_of self.now).call_at element }
    {
        self.marks.get(element)?.call()
    }

    // Which placeholder the first of the pattern's siblings is.
    pub fn placeholder(&self, p: Part) -> Option<usize>
        ensures value { result ≡ placeholder_of (matcher_of self.now) (elems_of p.entry) }
        ensures in_bounds { IfSome result (λ slot. slot < 8) }
    {
        if p.is_empty() {
            return None;
        }
        self.slot_at(p.number)
    }

    // Whether it is a node whose first child is one.
    pub fn has_placeholder_name(&self, q: Part) -> bool
        ensures { result ≡ has_placeholder_name (matcher_of self.now) (elems_of q.entry) }
    {
        q.is_node() && self.placeholder(q.children()).is_some()
    }

    // Whether a placeholder's constraints allow code that is, or is not, a literal.
    pub fn allows(&self, slot: usize, is_literal: bool) -> bool
        requires { slot < 8 }
        ensures { result ≡ (matcher_of self.now).allows slot is_literal }
    {
        self.limits[slot].allows(is_literal)
    }
}
