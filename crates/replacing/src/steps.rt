// One step after the other, while the template at hand is that of the row.
ghost use Rattle.std.specs.Prelude.{◌≡◌, ◌||◌, ◌≤◌, ◌<◌, ltb, length, is_some, None};
ghost use Rattle.rows.specs.Rows.{World};
ghost use Rattle.rows.specs.Frames.{frame_of, Keeps};
ghost use Rattle.replacing.specs.Steps.{FramesFor, AtStep, StepLeft, StepsLeft};

use crate::{Event, Matches, Step, Template, nested, pieces};
use rows::frames::Frame;

// Whether a row is in a captured text, or has one of so many fragments left.
fn goes_on(frame: &Frame, count: usize) -> bool
    ensures { result ≡ (is_some frame.now.filling || ltb frame.now.passed count) }
{
    frame.filling.is_some() | ((frame.passed as usize) < count)
}

// One step in row k.
#[tactic(auto, using(crate::proofs::StepLaws::captured_at, crate::proofs::StepLaws::captured_low, crate::proofs::StepLaws::captured_step, crate::proofs::StepLaws::next_at, crate::proofs::StepLaws::piece_step, crate::proofs::StepLaws::piece_ends, crate::proofs::StepLaws::keeps_piece))]
fn take_step<T: Template>(
    matches: Matches<'_>,
    template: &T,
    frames: &mut [Frame],
    k: usize,
    out: &mut [u8],
    at: usize,
) -> Result<Step, Event>
    requires frames_for { FramesFor matches k frames.old × (length (T.fragments template.now) ≤ 16384) × (length out.old ≤ 1048576)
        × ((frame_of frames.old k).filling ≡ None → (frame_of frames.old k).passed < length (T.fragments template.now)) }
    requires at_step { (W : World) × AtStep W matches (T.fragments template.now) k (frame_of frames.old k) out.old at }
    ensures keeps { Keeps k frames.old frames.new at out.old out.new }
    ensures step_left { StepLeft matches.entry (T.fragments template.now) k frames.old out.old at frames.new out.new result }
{
    match frames[k].filling {
        Some(progress) => nested::put_captured(matches, frames, k, progress, out, at),
        None => {
            let fragment = template.fragment(frames[k].passed as usize);
            let row = &matches.rows[k];
            let behind = pieces::put_piece(row, &mut frames[k], k, fragment, out, at)?;
            Ok(Step::At(behind))
        }
    }
}

// The steps in row k, up to its last fragment or to a row nested in it.
#[tactic(auto, using(crate::proofs::StepLaws::went_none, crate::proofs::StepLaws::went_on, crate::proofs::StepLaws::went_less, crate::proofs::StepLaws::steps_nested, crate::proofs::StepLaws::steps_event, crate::proofs::StepLaws::steps_end, crate::proofs::StepLaws::keeps_trans))]
pub fn take_steps<T: Template>(
    matches: Matches<'_>,
    template: &T,
    frames: &mut [Frame],
    k: usize,
    out: &mut [u8],
    begin: usize,
) -> Result<Step, Event>
    requires frames_for { FramesFor matches k frames.old × (length (T.fragments template.now) ≤ 16384) × (length out.old ≤ 1048576) }
    requires at_step { (W : World) × AtStep W matches (T.fragments template.now) k (frame_of frames.old k) out.old begin }
    ensures keeps { Keeps k frames.old frames.new begin out.old out.new }
    ensures steps_left { StepsLeft matches.entry (T.fragments template.now) k frames.old out.old begin frames.new out.new result }
{
    let mut at = begin;
    while goes_on(&frames[k], template.len()) {
        match take_step(matches, template, frames, k, out, at)? {
            Step::At(behind) => at = behind,
            Step::Nested { row, at: behind } => return Ok(Step::Nested { row, at: behind }),
        }
    }
    Ok(Step::At(at))
}
