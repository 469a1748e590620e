// The edit list of a job, from front to back: an edit for each outer row, with its text and those nested in it.
ghost use Rattle.std.specs.Prelude.{◌≡◌, ◌≤◌, ◌<◌, length, take};
ghost use Rattle.words.specs.Buffer.{filled};
ghost use Rattle.rendering.specs.Traces.{Trace, within};
ghost use Rattle.edits.specs.Answers.{answer_of, bytes_of};
ghost use Rattle.collections.specs.Worlds.{is_outer};
ghost use Rattle.rows.specs.Rows.{World};
ghost use Rattle.render_replace.specs.Worlds.{Shown, AtHand};
ghost use Rattle.render_replace.specs.Answers.{Answers};
ghost use Rattle.job_list.specs.Lists.{EditLeft, EditsLeft, node_start, node_end, edits_within};

use edits::{EditHead, Edited};
use errors::Refusal;
use nester::{Nesting, Row};
use readying::ReadyTemplate;
use render_replace::turns::row_of;
use render_replace::{Handed, RenderTables};
use replacing::Event;
use rows::frames::Frame;
use syntax::trees::Tree;

// Whether a row is outer.
fn is_outer(row: &Row) -> bool
    ensures { result ≡ is_outer row.now.state }
{
    row.state == Nesting::Outermost
}

// The words of the edit of a node, but for the length of its text, which is not known yet.
#[tactic(auto, using(syntax::proofs::ViewLaws::range_itself, captures::proofs::BindingLaws::start_fits, captures::proofs::BindingLaws::end_fits))]
fn head_of(tree: Tree, node: usize) -> EditHead
    ensures start { result.start ≡ node_start tree.entry.words.now node }
    ensures end { result.end ≡ node_end tree.entry.words.now node }
    ensures length { result.length ≡ 0 }
{
    let range = tree.element(node).range();
    EditHead {
        start: range.start as u32,
        end: range.end as u32,
        length: 0,
    }
}

// The edit of row k, where it is outer, from a place on: its length is put in its words when the text is laid.
#[tactic(auto, using(crate::proofs::EditLaws::inner_left, crate::proofs::EditLaws::full_left, crate::proofs::EditLaws::begins_behind, crate::proofs::EditLaws::text_rises, crate::proofs::EditLaws::put_same))]
fn write_edit<'a, const N: usize>(
    handed: &Handed<'_, 'a, N>,
    frames: &mut [Frame],
    k: usize,
    tables: &mut RenderTables<N>,
    at_hand: &mut Option<ReadyTemplate<'a>>,
    out: &mut [u8],
    at: usize,
) -> Result<usize, Event>
    requires at_hand { AtHand handed.now.rules at_hand.old tables.old.pieces }
    requires fits { (length out.old ≤ 1048576) × (at ≤ length out.old) }
    requires shown { (W : World) × Shown W handed.now × (k < length handed.now.rows) × (length handed.now.rows ≤ length frames.old) }
    ensures frames_len { length frames.new ≡ length frames.old }
    ensures out_unchanged { (length out.new ≡ length out.old) × (take at out.new ≡ take at out.old) }
    ensures at_hand { AtHand handed.now.rules at_hand.new tables.new.pieces }
    ensures edit_left { EditLeft handed.now k at out.new result }
{
    let row = row_of(handed.rows, k);
    if !is_outer(row) {
        return Ok(at);
    }
    let head = head_of(handed.file.tree, row.node as usize);
    let begin = head.put(out, at).ok_or(Event::NoRoom)?;
    let behind = render_replace::render_replace(handed, frames, k, tables, at_hand, out, begin)?;
    let whole = EditHead {
        length: (behind - begin) as u32,
        ..head
    };
    whole.put(out, at);
    Ok(behind)
}

// The edits of all rows, from the front.
#[tactic(auto, using(crate::proofs::EditsLaws::laying_all))]
fn write_rows<'a, const N: usize>(
    handed: &Handed<'_, 'a, N>,
    frames: &mut [Frame],
    tables: &mut RenderTables<N>,
    at_hand: &mut Option<ReadyTemplate<'a>>,
    out: &mut [u8],
) -> Result<usize, Event>
    requires at_hand { AtHand handed.now.rules at_hand.old tables.old.pieces }
    requires fits { length out.old ≤ 1048576 }
    requires shown { (W : World) × Shown W handed.now × (length handed.now.rows ≤ length frames.old) }
    ensures out_len_unchanged { length out.new ≡ length out.old }
    ensures edits_left { EditsLeft handed.now out.new result }
{
    let mut at = 0;
    for k in 0..handed.rows.len() {
        at = write_edit(handed, frames, k, tables, at_hand, out, at)?;
    }
    Ok(at)
}

// The answer, and the buffer then, by what stands in it.
fn answer(laid: Result<usize, Event>, out: &mut [u8]) -> Result<Edited, Refusal>
    requires { (length out.old ≤ 1048576) × ((u : Trace) × Answers u 0 out.old laid) }
    ensures { (u : Trace) → Answers u 0 out.old laid
        → (result ≡ answer_of (within u (length out.old)))
        × (out.new ≡ filled out.old (bytes_of (within u (length out.old)))) }
{
    match laid {
        Ok(behind) => edits::end(out, behind),
        Err(Event::Unbound) => errors::refuse(Refusal::UnboundPlaceholder, out),
        Err(Event::NoRoom) => errors::refuse(Refusal::NoRoom, out),
        Err(Event::Asked { kind, from, to }) => edits::ask(out, kind, from, to - from),
    }
}

// The edit list of all rows in a buffer that is used whole. What it asks for is some world that the values show; what it answers is right
// in every such world.
pub fn write_edits<const N: usize>(
    handed: &Handed<'_, '_, N>,
    frames: &mut [Frame],
    tables: &mut RenderTables<N>,
    out: &mut [u8],
) -> Result<Edited, Refusal>
    requires fits { length out.old ≤ 1048576 }
    requires shown { (W : World) × Shown W handed.now × (length handed.now.rows ≤ length frames.old) }
    ensures { (W : World) → Shown W handed.now
        → (result ≡ answer_of (edits_within handed.now.file.words W out.old))
        × (out.new ≡ filled out.old (bytes_of (edits_within handed.now.file.words W out.old))) }
{
    let mut at_hand = None;
    let laid = write_rows(handed, frames, tables, &mut at_hand, out);
    answer(laid, out)
}
