// `token_is_method_call_receiver` of docs/src/src/replacing.rs: the only token within a receiver.
ghost use Rattle.std.specs.Prelude.{◌≡◌, List, ℕ};
ghost use Rattle.syntax.specs.Accessors.{children};
ghost use Rattle.syntax.specs.Siblings.{kind_of};
ghost use Rattle.syntax.specs.Views.{elems_of};
ghost use Rattle.templates.specs.Pieces.{tokens_of, receiver_below};
ghost use Rattle.templates.specs.Rendering.{only_of};

use syntax::kinds::METHOD_CALL_EXPR;
use syntax::parts::Part;
use words::fields;

// The only token among siblings and below them, by its number. A part is in preorder, so that its elements are looked at one after the other,
// up to the second token.
#[tactic(auto, using(crate::proofs::TokenLaws::only_start, crate::proofs::TokenLaws::only_end, crate::proofs::TokenLaws::only_second, crate::proofs::TokenLaws::only_first, crate::proofs::TokenLaws::only_node))]
fn only_token(part: Part<'_>) -> Option<usize>
    ensures { result ≡ only_of (tokens_of (elems_of part.entry)) }
{
    let mut only = None;
    let mut c = part;
    while !c.is_empty() {
        if fields::is_token(c.words) {
            if only.is_some() {
                return None;
            }
            only = Some(c.number);
        }
        c = c.behind(1);
    }
    only
}

// The only token within the receiver of the nearest method call around an element's children, by that of the one around the element.
#[tactic(auto, using(crate::proofs::TokenLaws::receiver_here, crate::proofs::TokenLaws::receiver_kept))]
pub fn receiver_below(c: Part<'_>, receiver: Option<usize>) -> Option<usize>
    ensures { (rs : List ℕ) → receiver ≡ only_of rs → result ≡ only_of (receiver_below (kind_of (elems_of c.entry)) (children (elems_of c.entry)) rs) }
{
    if c.kind() == METHOD_CALL_EXPR {
        return only_token(c.children().find_expression().children());
    }
    receiver
}
