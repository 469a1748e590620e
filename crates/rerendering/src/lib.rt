// What becomes of a first rendering: it is asked for, or it stands, or it is rendered again with parentheses.
#![tactic(auto)]

ghost use Rattle.std.specs.Prelude.{◌≡◌, ℕ, ◌-◌, ◌≤◌, length, take};
ghost use Rattle.parses.specs.Ranges.{ranges_in};
ghost use Rattle.parentheses.specs.Parentheses.{total};
ghost use Rattle.parentheses.specs.Parts.{part_of, parts_of};
ghost use Rattle.rows.specs.Told.{fragment_of};
ghost use Rattle.rows.specs.Rows.{World};
ghost use Rattle.rerendering.specs.Parts.{slot_length, prefix_in, measured, measured_parts};
ghost use Rattle.rerendering.specs.Endings.{PutAgain, Shows, Ended};

use captures::Binding;
use parentheses::Part;
use parses::Parses;
use replacing::{Event, Template};
use rows::frames::{Frame, Span};
use rows::matches;
use rows::told::Fragment;
use syntax::kinds::{EXPRESSIONS, ITEMS, Kinds};

// The kinds of template roots that are parsed: expressions and items.
const PARSED: Kinds = Kinds {
    low: EXPRESSIONS.low,
    high: ITEMS.high,
};

// How many bytes a slot's text has.
fn slot_length(text: Option<Span>) -> usize
    ensures { result ≡ slot_length text }
{
    text.map_or(0, |span| span.end.saturating_sub(span.start) as usize)
}

// How many bytes the prefix of a placeholder has.
fn prefix_length(binding: Option<Binding>, is_receiver: bool) -> usize
    ensures { result ≡ length (prefix_in binding is_receiver) }
{
    binding.map_or(0, |b| matches::prefix_length(&b, is_receiver))
}

// The part that a fragment rendered.
fn part_of(bindings: &[Option<Binding>; 8], frame: &Frame, fragment: Fragment<'_>) -> Part
    requires { (measured bindings.now frame.now (fragment_of fragment)).length ≤ 1048576 }
    ensures { part_of result ≡ measured bindings.now frame.now (fragment_of fragment.entry) }
{
    match fragment {
        Fragment::Fixed(text) => Part {
            length: text.len() as u32,
            is_placeholder: false,
            is_enclosed: false,
        },
        Fragment::Captured(hole) => {
            let slot = hole.slot as usize;
            let prefix = prefix_length(bindings[slot], hole.is_receiver);
            let length = prefix + slot_length(frame.texts[slot]);
            Part {
                length: length as u32,
                is_placeholder: true,
                is_enclosed: false,
            }
        }
    }
}

// The parts of all fragments.
#[tactic(auto, using(crate::proofs::PartLaws::part_low, crate::proofs::PartLaws::parts_more, crate::proofs::PartLaws::parts_all))]
fn measure_parts<T: Template>(
    bindings: &[Option<Binding>; 8],
    frame: &Frame,
    template: &T,
    parts: &mut [Part],
)
    requires { (length parts.old ≡ length (T.fragments template.now)) × (total (measured_parts bindings.now frame.now (T.fragments template.now)) ≤ 1048576) }
    ensures { parts_of parts.new ≡ measured_parts bindings.now frame.now (T.fragments template.now) }
{
    for (i, part) in parts.iter_mut().enumerate() {
        *part = part_of(bindings, frame, template.fragment(i));
    }
}

// The text from b up to a place is rendered again, with parentheses round the parts that require them.
#[tactic(auto, using(crate::proofs::AgainLaws::room_again))]
fn put_again(
    ranges: &[[u32; 2]],
    parts: &mut [Part],
    out: &mut [u8],
    b: usize,
    at: usize,
) -> Option<usize>
    requires { (b ≤ at) × (at ≤ length out.old) × (length out.old ≤ 1048576) × (total (parts_of parts.old) ≡ at - b) × (length parts.old ≤ 16384) }
    ensures { PutAgain (ranges_in ranges.now) (parts_of parts.old) b at out.old out.new result }
{
    let more = parentheses::mark_parts(ranges, parts);
    if out.len() - at < more {
        return None;
    }
    parentheses::put_parentheses(&mut out[b..], at - b, more, parts);
    Some(at + more)
}

// The end of the first rendering of a row, of some kind, which stands before a place. `parts` is room to work in, for each fragment one. What
// it asks for is some world that the values show; what it answers is right in every such world.
#[tactic(auto, using(crate::proofs::EndLaws::stays, crate::proofs::EndLaws::asked))]
pub fn end_rendering<T: Template>(
    bindings: &[Option<Binding>; 8],
    frame: &Frame,
    template: &T,
    kind: u32,
    parses: &Parses<'_>,
    parts: &mut [Part],
    out: &mut [u8],
    at: usize,
) -> Result<usize, Event>
    requires few { (length (T.fragments template.now) ≤ 16384) × (length (T.fragments template.now) ≤ length parts.old) × (length out.old ≤ 1048576) }
    requires shows { (W : World) × (k : ℕ) × Shows W k bindings.now frame.now (T.fragments template.now) kind parses.now out.old at }
    ensures ended { Ended bindings.now frame.now (T.fragments template.now) kind parses.now out.old at out.new result }
    ensures out_len_unchanged { (length out.new ≡ length out.old) × (take frame.now.begin out.new ≡ take frame.now.begin out.old) }
{
    if !PARSED.contains(kind) {
        return Ok(at);
    }
    let b = frame.begin as usize;
    let asked = Event::Asked {
        kind,
        from: b,
        to: at,
    };
    let ranges = parses.find_parse(kind, &out[b..at]).ok_or(asked)?;
    if ranges.is_empty() {
        return Ok(at);
    }
    let parts = &mut parts[..template.len()];
    measure_parts(bindings, frame, template, parts);
    put_again(ranges, parts, out, b, at).ok_or(Event::NoRoom)
}
