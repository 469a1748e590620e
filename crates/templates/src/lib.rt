// What a template renders, in pieces: docs/src/src/replacing.rs as far as it depends on the rule alone.
#![tactic(auto)]

pub mod receivers; // receivers.rt: the only token of a method call's receiver
pub mod rendering; // rendering.rt: the walk over a template's tree

// A token's bytes in the template's code; the text of a rendered path, an element of the template, for the module of the matched node; what
// the placeholder of a slot captured. A template has up to 16,383 of them, so that they are small.
#[derive(Clone, Copy)]
pub enum Piece {
    Text { start: u16, end: u16 },
    Path(u16),
    Hole { slot: u8, is_receiver: bool },
}

const _: () = prove!(size_of::<Piece>() == 6);
