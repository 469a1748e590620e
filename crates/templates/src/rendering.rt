// `render_node`, `render_node_children`, `render_node_or_token` and `render_token` of docs/src/src/replacing.rs, into a buffer of pieces.
ghost use Rattle.std.specs.Prelude.{◌≡◌, List, ℕ, ◌/◌, ◌≤◌, ◌<◌, length, take};
ghost use Rattle.syntax.specs.Trees.{size};
ghost use Rattle.syntax.specs.Accessors.{range_of, by_itself};
ghost use Rattle.syntax.specs.Siblings.{kind_of};
ghost use Rattle.syntax.specs.Views.{elems_of};
ghost use Rattle.paths.specs.Steps.{root_of};
ghost use Rattle.templates.specs.Pieces.{template_of, token_piece, render, pieces};
ghost use Rattle.templates.specs.Rendering.{only_of, mode_of, element_pieces, Room};

use crate::{Piece, receivers};
use paths::Resolved;
use syntax::kinds::{IDENT, Kinds, NAME_REF, PATH_SEGMENT};
use syntax::parts::Part;
use words::fields;

// The token that a part begins with.
#[tactic(auto, using(crate::proofs::RenderLaws::token_other, crate::proofs::RenderLaws::token_name, crate::proofs::RenderLaws::token_hole))]
fn render_token(resolved: &Resolved<'_>, c: Part<'_>, receiver: Option<usize>) -> Piece
    requires { ((range_of (elems_of c)).start < 65536) × ((range_of (elems_of c)).end < 65536) }
    ensures { (rs : List ℕ) → receiver ≡ only_of rs → result ≡ token_piece (template_of resolved.now.side (root_of resolved.now)) rs c.entry.number (kind_of (elems_of c.entry)) (range_of (elems_of c.entry)).start (range_of (elems_of c.entry)).end }
{
    if c.kind() == IDENT {
        if let Some(slot) = resolved.find_stand_in(c.text(resolved.code())) {
            return Piece::Hole {
                slot: slot as u8,
                is_receiver: receiver == Some(c.number),
            };
        }
    }
    let range = c.range();
    Piece::Text {
        start: range.start as u16,
        end: range.end as u16,
    }
}

// The element that a part begins with, and what is below it, in the first of a buffer: how many pieces these are.
#[cycle(render)]
fn render_node_or_token(
    resolved: &Resolved<'_>,
    c: Part<'_>,
    nameless: bool,
    receiver: Option<usize>,
    out: &mut [Piece],
) -> usize
    requires room { Room c (size (by_itself (elems_of c))) out.old × (3 ≤ length c.words.now) }
    ensures out_len_unchanged { length out.new ≡ length out.old }
    ensures few { result ≤ size (by_itself (elems_of c.entry)) }
    ensures laid { (rs : List ℕ) → receiver ≡ only_of rs → take result out.new ≡ element_pieces (template_of resolved.now.side (root_of resolved.now)) nameless rs (elems_of c.entry) }
{
    if nameless & c.is_node_in(Kinds::one(NAME_REF)) {
        return 0;
    }
    if fields::is_token(c.words) {
        out[0] = render_token(resolved, c, receiver);
        return 1;
    }
    let below = receivers::receiver_below(c, receiver);
    if resolved.refers_to_definition(c.number) {
        out[0] = Piece::Path(c.number as u16);
        let segment = c.first_child(PATH_SEGMENT);
        return 1 + render_node_children(resolved, segment.children(), true, below, &mut out[1..]);
    }
    render_node_children(resolved, c.children(), false, below, out)
}

// Siblings and what is below them, NAME_REF nodes among them or not, in the first of a buffer: how many pieces these are.
#[cycle(render)]
fn render_node_children(
    resolved: &Resolved<'_>,
    part: Part<'_>,
    nameless: bool,
    receiver: Option<usize>,
    out: &mut [Piece],
) -> usize
    requires room { Room part (size (elems_of part)) out.old }
    ensures out_len_unchanged { length out.new ≡ length out.old }
    ensures few { result ≤ size (elems_of part.entry) }
    ensures laid { (rs : List ℕ) → receiver ≡ only_of rs → take result out.new ≡ render (template_of resolved.now.side (root_of resolved.now)) (mode_of nameless) rs (elems_of part.entry) }
{
    let mut count = 0;
    for c in part {
        count += render_node_or_token(resolved, c, nameless, receiver, &mut out[count..]);
    }
    count
}

// The pieces of a template in turn, in the first of a buffer; how many these are.
pub fn render_template(resolved: &Resolved<'_>, out: &mut [Piece]) -> usize
    requires { length resolved.now.words / 3 ≤ length out.old }
    ensures out_len_unchanged { (length out.new ≡ length out.old) × (result ≤ length resolved.now.words / 3) }
    ensures out_after { take result out.new ≡ pieces resolved.now.side (root_of resolved.now) }
{
    render_node_children(resolved, resolved.tree().root(), false, None, out)
}
