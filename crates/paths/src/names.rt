// What resolving asks of a path. A path's qualifier is the first PATH among its children.
ghost use Rattle.std.specs.Prelude.{◌≡◌};
ghost use Rattle.syntax.specs.Accessors.{children};
ghost use Rattle.syntax.specs.Views.{elems_of};
ghost use Rattle.paths.specs.Names.{name_in, is_self, has_type_arguments, contains_type_arguments};

use syntax::kinds::{GENERIC_ARG_LIST, Kinds, NAME_REF, PATH, PATH_SEGMENT, SELF_KW};
use syntax::parts::Part;

// The first path among siblings and its qualifiers in turn, each by its children.
#[derive(Clone, Copy)]
pub struct Qualifiers<'a> {
    pub siblings: Part<'a>,
}

impl<'a> Iterator for Qualifiers<'a> {
    ghost use Rattle.std.specs.Prelude.{length};
    ghost use Rattle.std.specs.Iterator.{at_most};
    ghost use Rattle.paths.specs.Qualifiers.{GivesPath};

    type Item = Part<'a>;

    ghost next_gives = { GivesPath };

    ghost remaining = { λ s. at_most (length s.siblings.words.now) };

    fn next(&mut self) -> Option<Part<'a>> {
        let path = self.siblings.find_node(Kinds::one(PATH));
        if path.is_empty() {
            return None;
        }
        self.siblings = path.children();
        Some(self.siblings)
    }
}

// A path's name, from its children.
pub fn name_in(path: Part<'_>) -> Part<'_>
    ensures { elems_of result ≡ name_in (elems_of path.entry) }
{
    path.find_node(Kinds::one(PATH_SEGMENT))
        .first_child(NAME_REF)
        .first_token()
}

// Whether the path that a part begins with is `self`.
pub fn is_self(c: Part<'_>) -> bool
    ensures { result ≡ is_self (elems_of c.entry) }
{
    name_in(c.children()).is_token_in(Kinds::one(SELF_KW))
}

// Whether a path's segment has type arguments, from the path's children.
fn has_type_arguments(path: Part<'_>) -> bool
    ensures { result ≡ has_type_arguments (elems_of path.entry) }
{
    !path
        .find_node(Kinds::one(PATH_SEGMENT))
        .first_child(GENERIC_ARG_LIST)
        .is_empty()
}

// Whether the first path among siblings or one of its qualifiers has type arguments.
#[tactic(auto, using(crate::proofs::NameLaws::arguments_here, crate::proofs::NameLaws::arguments_past, crate::proofs::NameLaws::arguments_end))]
pub fn contains_type_arguments(siblings: Part<'_>) -> bool
    ensures { result ≡ contains_type_arguments (elems_of siblings.entry) }
{
    for path in (Qualifiers { siblings }) {
        if has_type_arguments(path) {
            return true;
        }
    }
    false
}
