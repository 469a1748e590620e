// A captured text, with the texts of the rows that are nested in it.
ghost use Rattle.std.specs.Prelude.{◌≡◌, ◌≤◌, ◌<◌, length, Some};
ghost use Rattle.rows.specs.Rows.{World, end_in};
ghost use Rattle.rows.specs.Frames.{frame_of, Keeps};
ghost use Rattle.replacing.specs.Steps.{FramesFor, AtCaptured, CapturedLeft};

use crate::{Event, Matches, Step};
use captures::Binding;
use rows::frames::{Frame, Progress};
use rows::matches;
use words::{buffer, slices};

// Where a binding ends in the file.
fn end_of(binding: Option<Binding>) -> usize
    ensures { result ≡ end_in binding }
{
    binding.map_or(0, |b| b.end as usize)
}

// A step on in a captured text of row k: up to the row that is nested in it next, whose text begins then, or up to its end.
#[tactic(auto, using(crate::proofs::CapturedLaws::before_next, crate::proofs::CapturedLaws::nests, crate::proofs::CapturedLaws::before_short, crate::proofs::CapturedLaws::ends, crate::proofs::CapturedLaws::rest_short))]
pub fn put_captured(
    matches: Matches<'_>,
    frames: &mut [Frame],
    k: usize,
    progress: Progress,
    out: &mut [u8],
    at: usize,
) -> Result<Step, Event>
    requires frames_for { FramesFor matches k frames.old × ((frame_of frames.old k).filling ≡ Some progress) × ((frame_of frames.old k).passed < 16384) × (length out.old ≤ 1048576) }
    requires at_captured { (W : World) × AtCaptured W matches k (frame_of frames.old k) out.old at }
    ensures keeps { Keeps k frames.old frames.new at out.old out.new }
    ensures captured_left { CapturedLeft matches.entry k frames.old out.old at frames.new out.new result }
{
    let row = &matches.rows[k];
    let slot = progress.slot as usize;
    let from = progress.from as usize;
    match matches::next_nested(
        matches.rows,
        k,
        slot,
        progress.next as usize,
        row.end as usize,
    ) {
        Some(j) => {
            let range = matches.range(j);
            let before = slices::part_of(matches.text, from, range.start);
            let behind = buffer::put(out, at, before).ok_or(Event::NoRoom)?;
            frames[k].pass_row(progress, j, range.end);
            frames[j] = Frame::at(behind);
            Ok(Step::Nested { row: j, at: behind })
        }
        None => {
            let end = end_of(row.bindings[slot]);
            let rest = slices::part_of(matches.text, from, end);
            let behind = buffer::put(out, at, rest).ok_or(Event::NoRoom)?;
            frames[k].end_slot(progress, behind);
            Ok(Step::At(behind))
        }
    }
}
