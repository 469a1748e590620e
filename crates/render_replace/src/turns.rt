// One row's turn: its steps up to a row that is nested in it, or to the end of its text.
ghost use Rattle.std.specs.Prelude.{◌≡◌, true, ℕ, ◌≤◌, ◌<◌, length, take};
ghost use Rattle.checks.specs.Given.{is_node_of};
ghost use Rattle.nester.specs.Rows.{row_at};
ghost use Rattle.rows.specs.Rows.{World};
ghost use Rattle.rows.specs.Frames.{frame_of, came, Keeps};
ghost use Rattle.replacing.specs.Steps.{FramesFor};
ghost use Rattle.rerendering.specs.Endings.{Shows, Ended};
ghost use Rattle.render_replace.specs.Worlds.{AtHand};
ghost use Rattle.render_replace.specs.Turns.{AtTemplate, StepsEnd, AtRow, RowLeft, row_behind, EndedBy, AtTurn, TurnLeft, TurnKeeps};

use crate::{Handed, RenderTables, comments};
use captures::Binding;
use nester::{Nesting, Row};
use parentheses::Part;
use parses::Parses;
use readying::ReadyTemplate;
use readying::reading::Fragments;
use replacing::{Event, Matches, Step, Template, steps};
use rows::frames::Frame;
use rule_match::preparing::MatchTables;

// Behind the text of a row, or the part of it that ends where a row nested in it begins: the place, and the row that rendering goes on in, if
// any.
#[derive(Clone, Copy)]
pub struct Turned {
    pub at: usize,
    pub next: Option<usize>,
}

// A row.
#[tactic(auto, using(crate::proofs::RowLaws::row_read))]
pub fn row_of(rows: &[Row], k: usize) -> &Row
    requires { k < length rows.now }
    ensures { result.now ≡ row_at rows.now k }
{
    &rows[k]
}

// The frame of a row.
#[tactic(auto, using(replacing::proofs::CapturedLaws::frame_read))]
fn frame_of(frames: &[Frame], k: usize) -> &Frame
    requires { k < length frames.now }
    ensures { result.now ≡ frame_of frames.now k }
{
    &frames[k]
}

// The parts of a first rendering of up to P fragments are made here, in a frame that never lies below those of matching.
#[inline(never)]
fn end_rendering<T: Template, const P: usize>(
    bindings: &[Option<Binding>; 8],
    frame: &Frame,
    template: &T,
    kind: u32,
    parses: &Parses<'_>,
    out: &mut [u8],
    at: usize,
) -> Result<usize, Event>
    requires few { (P ≤ 16384) × (length (T.fragments template.now) ≤ P) × (length out.old ≤ 1048576) }
    requires shows { (W : World) × (k : ℕ) × Shows W k bindings.now frame.now (T.fragments template.now) kind parses.now out.old at }
    ensures ended { Ended bindings.now frame.now (T.fragments template.now) kind parses.now out.old at out.new result }
    ensures out_len_unchanged { (length out.new ≡ length out.old) × (take frame.now.begin out.new ≡ take frame.now.begin out.old) }
{
    let mut parts = [Part {
        length: 0,
        is_placeholder: false,
        is_enclosed: false,
    }; P];
    rerendering::end_rendering(bindings, frame, template, kind, parses, &mut parts, out, at)
}

// The same, in room for at most four times the fragments: it is cleared for each row.
fn end_template<T: Template, const N: usize>(
    bindings: &[Option<Binding>; 8],
    frame: &Frame,
    template: &T,
    kind: u32,
    parses: &Parses<'_>,
    out: &mut [u8],
    at: usize,
) -> Result<usize, Event>
    requires few { (N ≤ 16384) × (length (T.fragments template.now) ≤ N) × (length out.old ≤ 1048576) }
    requires shows { (W : World) × (k : ℕ) × Shows W k bindings.now frame.now (T.fragments template.now) kind parses.now out.old at }
    ensures ended { Ended bindings.now frame.now (T.fragments template.now) kind parses.now out.old at out.new result }
    ensures out_len_unchanged { (length out.new ≡ length out.old) × (take frame.now.begin out.new ≡ take frame.now.begin out.old) }
{
    let count = template.len();
    if count <= 64 {
        return end_rendering::<T, 64>(bindings, frame, template, kind, parses, out, at);
    }
    if count <= 256 {
        return end_rendering::<T, 256>(bindings, frame, template, kind, parses, out, at);
    }
    if count <= 1024 {
        return end_rendering::<T, 1024>(bindings, frame, template, kind, parses, out, at);
    }
    if count <= 4096 {
        return end_rendering::<T, 4096>(bindings, frame, template, kind, parses, out, at);
    }
    end_rendering::<T, N>(bindings, frame, template, kind, parses, out, at)
}

// The steps of row k, whose template and kind are at hand, and the end of its first rendering.
#[tactic(auto, using(crate::proofs::StepLaws::at_end, crate::proofs::StepLaws::steps_done, crate::proofs::StepLaws::steps_asked, crate::proofs::StepLaws::steps_nested, crate::proofs::StepLaws::steps_ended, crate::proofs::StepLaws::keeps_row, crate::proofs::StepLaws::keeps_again, crate::proofs::StepLaws::template_low, crate::proofs::StepLaws::came_low))]
fn render_row<T: Template, const N: usize>(
    matches: Matches<'_>,
    template: &T,
    kind: u32,
    parses: &Parses<'_>,
    frames: &mut [Frame],
    k: usize,
    out: &mut [u8],
    at: usize,
) -> Result<Step, Event>
    requires frames_for { FramesFor matches k frames.old × (N ≤ 16384) × (length (T.fragments template.now) ≤ N) × (length out.old ≤ 1048576) }
    requires at_template { (W : World) × AtTemplate W matches (T.fragments template.now) kind parses.now k (frame_of frames.old k) out.old at }
    ensures keeps { Keeps k frames.old frames.new (frame_of frames.old k).begin out.old out.new }
    ensures low { came (frame_of frames.old k) < 33556480 }
    ensures steps_end { StepsEnd matches.entry (T.fragments template.now) kind parses.now k frames.old out.old at frames.new out.new result }
{
    match steps::take_steps(matches, template, frames, k, out, at)? {
        Step::At(behind) => {
            let bindings = &row_of(matches.rows, k).bindings;
            let frame = frame_of(frames, k);
            let last = end_template::<T, N>(bindings, frame, template, kind, parses, out, behind)?;
            Ok(Step::At(last))
        }
        Step::Nested { row, at: behind } => Ok(Step::Nested { row, at: behind }),
    }
}

// The steps of row k, whose template is made ready first.
#[tactic(auto, using(crate::proofs::RowLaws::frames_for, crate::proofs::RowLaws::at_template, crate::proofs::RowLaws::row_left, crate::proofs::RowLaws::has_template, crate::proofs::RowLaws::at_hand, crate::proofs::RowLaws::few_fragments, crate::proofs::RowLaws::row_inside, crate::proofs::RowLaws::frame_there, crate::proofs::StepLaws::keeps_row))]
fn ready_row<'a, const N: usize>(
    handed: &Handed<'_, 'a, N>,
    frames: &mut [Frame],
    k: usize,
    tables: &mut RenderTables<N>,
    at_hand: &mut Option<ReadyTemplate<'a>>,
    out: &mut [u8],
    at: usize,
) -> Result<Step, Event>
    requires at_hand { AtHand handed.now.rules at_hand.old tables.old.pieces }
    requires fits { length out.old ≤ 1048576 }
    requires at_row { (W : World) × AtRow W handed.now k frames.old out.old at }
    ensures keeps { Keeps k frames.old frames.new (frame_of frames.old k).begin out.old out.new }
    ensures at_hand { AtHand handed.now.rules at_hand.new tables.new.pieces }
    ensures low { came (frame_of frames.old k) < 33556480 }
    ensures row_left { RowLeft handed.now k frames.old out.old at frames.new out.new result }
{
    let row = row_of(handed.rows, k);
    let template = readying::make_ready(
        handed.rules,
        row.rule as usize,
        row.module,
        *at_hand,
        &mut tables.matching.resolving,
        &mut tables.pieces,
    );
    *at_hand = Some(template);
    let fragments = template.fragments(&tables.pieces, handed.fact_text);
    let matches = Matches {
        rows: handed.rows,
        tree: handed.file.tree,
        text: handed.file.text,
    };
    render_row::<Fragments, N>(
        matches,
        &fragments,
        template.kind,
        handed.parses,
        frames,
        k,
        out,
        at,
    )
}

// The row that rendering goes on in behind the text of row k: the one that it is nested in, if it is not row k0.
fn row_behind(rows: &[Row], k0: usize, k: usize) -> Option<usize>
    requires { k < length rows.now }
    ensures { result ≡ row_behind rows.now k0 k }
{
    if k == k0 {
        return None;
    }
    match row_of(rows, k).state {
        Nesting::Inside { row, .. } => Some(row as usize),
        _ => None,
    }
}

// The end of row k's text, whose comments come last.
#[tactic(auto, using(rows::proofs::BetweenLaws::grows_none))]
fn end_row<const N: usize>(
    handed: &Handed<'_, '_, N>,
    k0: usize,
    k: usize,
    tables: &mut MatchTables<N>,
    out: &mut [u8],
    at: usize,
) -> Result<Turned, Event>
    requires inside { (k < length handed.now.rows) × (at ≤ length out.old) }
    requires is_node { is_node_of handed.now.file (row_at handed.now.rows k).node ≡ true }
    ensures ended { EndedBy handed.now k0 k out.old at out.new result }
{
    let next = row_behind(handed.rows, k0, k);
    let row = row_of(handed.rows, k);
    if !row.has_comments {
        return Ok(Turned { at, next });
    }
    let behind = comments::put_comments(handed, row, tables, out, at).ok_or(Event::NoRoom)?;
    Ok(Turned { at: behind, next })
}

// A turn of row k, which stands at a place.
#[tactic(auto, using(crate::proofs::TurnLaws::goes_in, crate::proofs::TurnLaws::goes_in_keeps, crate::proofs::TurnLaws::ends_turn, crate::proofs::TurnLaws::ends_keeps, crate::proofs::TurnLaws::row_ends, crate::proofs::TurnLaws::row_keeps, crate::proofs::TurnLaws::row_inside, crate::proofs::TurnLaws::row_node, crate::proofs::TurnLaws::at_row_of, crate::proofs::TurnLaws::text_fits))]
pub fn take_turn<'a, const N: usize>(
    handed: &Handed<'_, 'a, N>,
    frames: &mut [Frame],
    k0: usize,
    k: usize,
    tables: &mut RenderTables<N>,
    at_hand: &mut Option<ReadyTemplate<'a>>,
    out: &mut [u8],
    at: usize,
) -> Result<Turned, Event>
    requires at_hand { AtHand handed.now.rules at_hand.old tables.old.pieces }
    requires fits { length out.old ≤ 1048576 }
    requires at_turn { (W : World) × AtTurn W handed.now k0 k frames.old out.old at }
    ensures turn_keeps { TurnKeeps k0 k frames.old frames.new out.old out.new result }
    ensures at_hand { AtHand handed.now.rules at_hand.new tables.new.pieces }
    ensures turn_left { TurnLeft handed.now k0 k frames.old out.old at frames.new out.new result }
{
    match ready_row(handed, frames, k, tables, at_hand, out, at)? {
        Step::At(behind) => end_row(handed, k0, k, &mut tables.matching, out, behind),
        Step::Nested { row, at: behind } => Ok(Turned {
            at: behind,
            next: Some(row),
        }),
    }
}
