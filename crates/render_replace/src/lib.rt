// `render_replace` of docs/src/src/replacing.rs: the text of an outer match, with those nested in it.
#![tactic(auto)]

pub mod comments; // comments.rt: the comments of a match
pub mod handed; // handed.rt: what a job hands to rendering, and what rendering works in
pub mod turns; // turns.rt: one row's turn

ghost use Rattle.std.specs.Prelude.{◌≡◌, ◌≤◌, ◌<◌, length, take};
ghost use Rattle.rows.specs.Rows.{World, count_of};
ghost use Rattle.rows.specs.Frames.{frame_of};
ghost use Rattle.render_replace.specs.Worlds.{Shown, AtHand};
ghost use Rattle.render_replace.specs.Turns.{AtTurn, TextLeft, RunLeft};

pub use handed::{Handed, RenderTables};
use readying::ReadyTemplate;
use replacing::Event;
use rows::frames::Frame;

// The text of the match of row k0, which stands at a place, in turns: its own and those of the rows nested in it.
#[tactic(auto, using(crate::proofs::RunLaws::going_none, crate::proofs::RunLaws::still_at, crate::proofs::RunLaws::goes_on, crate::proofs::RunLaws::has_gone, crate::proofs::RunLaws::has_ended, crate::proofs::RunLaws::kept, crate::proofs::RunLaws::goes_less))]
fn render_rows<'a, const N: usize>(
    handed: &Handed<'_, 'a, N>,
    frames: &mut [Frame],
    k0: usize,
    tables: &mut RenderTables<N>,
    at_hand: &mut Option<ReadyTemplate<'a>>,
    out: &mut [u8],
    begin: usize,
) -> Result<usize, Event>
    requires at_hand { AtHand handed.now.rules at_hand.old tables.old.pieces }
    requires fits { length out.old ≤ 1048576 }
    requires at_turn { (W : World) × AtTurn W handed.now k0 k0 frames.old out.old begin }
    ensures frames_len { length frames.new ≡ length frames.old }
    ensures out_unchanged { (length out.new ≡ length out.old) × (take (frame_of frames.old k0).begin out.new ≡ take (frame_of frames.old k0).begin out.old) }
    ensures at_hand { AtHand handed.now.rules at_hand.new tables.new.pieces }
    ensures run_left { RunLeft handed.now k0 frames.old out.old begin out.new result }
{
    let mut k = k0;
    let mut at = begin;
    loop {
        let turned = turns::take_turn(handed, frames, k0, k, tables, at_hand, out, at)?;
        at = turned.at;
        match turned.next {
            Some(row) => k = row,
            None => return Ok(at),
        }
    }
}

// The text of the match of row k0, from a place on, with those nested in it. What it asks for is some world that the values show; what it
// answers is right in every such world.
#[tactic(auto, using(crate::proofs::RunLaws::begins_turn, crate::proofs::RunLaws::begins_here, crate::proofs::RunLaws::text_left))]
pub fn render_replace<'a, const N: usize>(
    handed: &Handed<'_, 'a, N>,
    frames: &mut [Frame],
    k0: usize,
    tables: &mut RenderTables<N>,
    at_hand: &mut Option<ReadyTemplate<'a>>,
    out: &mut [u8],
    begin: usize,
) -> Result<usize, Event>
    requires at_hand { AtHand handed.now.rules at_hand.old tables.old.pieces }
    requires fits { (length out.old ≤ 1048576) × (begin ≤ length out.old) }
    requires shown { (W : World) × Shown W handed.now × (k0 < count_of W) × (length handed.now.rows ≤ length frames.old) }
    ensures frames_len { length frames.new ≡ length frames.old }
    ensures out_unchanged { (length out.new ≡ length out.old) × (take begin out.new ≡ take begin out.old) }
    ensures at_hand { AtHand handed.now.rules at_hand.new tables.new.pieces }
    ensures text_left { TextLeft handed.now k0 begin out.new result }
{
    frames[k0] = Frame::at(begin);
    render_rows(handed, frames, k0, tables, at_hand, out, begin)
}
