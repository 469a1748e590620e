// One fragment of a template.
ghost use Rattle.std.specs.Prelude.{ℕ, ◌+◌, ◌≤◌, ◌<◌, length, replicate};
ghost use Rattle.rendering.specs.Texts.{captured, reference, prefix};
ghost use Rattle.rows.specs.Told.{fragment_of};
ghost use Rattle.rows.specs.Rows.{World};
ghost use Rattle.rows.specs.Frames.{between};
ghost use Rattle.replacing.specs.Laying.{Lays};
ghost use Rattle.replacing.specs.Steps.{AtPiece, PieceLeft, KeepsFrame};

use crate::Event;
use captures::{Binding, SelfKind};
use nester::Row;
use rows::frames::{Frame, Span};
use rows::told::{Fragment, Hole};
use words::buffer;

// Lays so many stars.
fn put_stars(out: &mut [u8], at: usize, n: usize) -> Option<usize>
    requires { at ≤ length out.old }
    ensures { Lays out.old at (replicate n 42) out.new result }
{
    if out.len() - at < n {
        return None;
    }
    out[at..at + n].fill(b'*');
    Some(at + n)
}

// Lays `&`, `&mut ` or nothing.
fn put_reference(out: &mut [u8], at: usize, kind: SelfKind) -> Option<usize>
    requires { at ≤ length out.old }
    ensures { Lays out.old at (reference kind) out.new result }
{
    match kind {
        SelfKind::Owned => Some(at),
        SelfKind::Ref => buffer::put(out, at, b"&"),
        SelfKind::RefMut => buffer::put(out, at, b"&mut "),
    }
}

// Lays the prefix of a placeholder.
#[tactic(auto, using(crate::proofs::LayLaws::lays_then, crate::proofs::LayLaws::short_then, rows::proofs::BetweenLaws::grows_none))]
fn put_prefix(out: &mut [u8], at: usize, binding: &Binding, is_receiver: bool) -> Option<usize>
    requires { at ≤ length out.old }
    ensures { Lays out.old at (prefix binding.now is_receiver) out.new result }
{
    if is_receiver {
        return Some(at);
    }
    let behind = put_reference(out, at, binding.self_kind)?;
    put_stars(out, behind, binding.stars as usize)
}

// Lays a text of the buffer once more.
fn put_again(out: &mut [u8], at: usize, text: Span) -> Option<usize>
    requires { (text.start ≤ text.end) × (text.end ≤ at) × (at ≤ length out.old) }
    ensures { Lays out.old at (between text.start text.end out.old) out.new result }
{
    let n = (text.end - text.start) as usize;
    if out.len() - at < n {
        return None;
    }
    captures::lay_again(out, text.start as usize, n, at);
    Some(at + n)
}

// A placeholder of row k: its prefix, and then its text once more where it was rendered before; else it is to be filled.
#[tactic(auto, using(crate::proofs::PieceLaws::hole_unbound, crate::proofs::PieceLaws::prefix_short, crate::proofs::PieceLaws::slot_begun, crate::proofs::PieceLaws::laid_again, crate::proofs::PieceLaws::again_short))]
fn put_hole(
    row: &Row,
    frame: &mut Frame,
    k: usize,
    hole: Hole,
    out: &mut [u8],
    at: usize,
) -> Result<usize, Event>
    requires k_bound { (k ≤ 1023) × (frame.old.passed < 16384) × (length out.old ≤ 1048576) }
    requires at_piece { (W : World) × AtPiece W row.now k (captured hole.slot hole.is_receiver) frame.old out.old at }
    ensures keeps { KeepsFrame frame.old frame.new at out.old out.new }
    ensures piece_left { PieceLeft row.now k (captured hole.slot hole.is_receiver) frame.old out.old at frame.new out.new result }
{
    let slot = hole.slot as usize;
    let binding = row.bindings[slot].ok_or(Event::Unbound)?;
    let behind = put_prefix(out, at, &binding, hole.is_receiver).ok_or(Event::NoRoom)?;
    match frame.texts[slot] {
        Some(text) => {
            let end = put_again(out, behind, text).ok_or(Event::NoRoom)?;
            frame.pass_piece();
            Ok(end)
        }
        None => {
            frame.begin_slot(k, slot, binding.start as usize, behind);
            Ok(behind)
        }
    }
}

// The next fragment of row k.
#[tactic(auto, using(crate::proofs::PieceLaws::fixed_laid, crate::proofs::PieceLaws::fixed_short))]
pub fn put_piece(
    row: &Row,
    frame: &mut Frame,
    k: usize,
    fragment: Fragment<'_>,
    out: &mut [u8],
    at: usize,
) -> Result<usize, Event>
    requires k_bound { (k ≤ 1023) × (frame.old.passed < 16384) × (length out.old ≤ 1048576) }
    requires at_piece { (W : World) × AtPiece W row.now k (fragment_of fragment) frame.old out.old at }
    ensures keeps { KeepsFrame frame.old frame.new at out.old out.new }
    ensures piece_left { PieceLeft row.now k (fragment_of fragment.entry) frame.old out.old at frame.new out.new result }
{
    match fragment {
        Fragment::Fixed(text) => {
            let behind = buffer::put(out, at, text).ok_or(Event::NoRoom)?;
            frame.pass_piece();
            Ok(behind)
        }
        Fragment::Captured(hole) => put_hole(row, frame, k, hole, out, at),
    }
}
