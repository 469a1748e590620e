// `render_replace` of docs/src/src/replacing.rs, step by step: the fragments of a row's template, and its captured texts with the texts nested in them.
#![tactic(auto)]

pub mod nested; // nested.rt: a captured text with the texts nested in it
pub mod pieces; // pieces.rt: one fragment of a template
pub mod steps; // steps.rt: one step after the other

ghost use Rattle.std.specs.Prelude.{◌≡◌, ◌<◌, ℕ, List, [], length, get_or};
ghost use Rattle.rendering.specs.Texts as texts;
ghost use Rattle.rows.specs.Told.{fragment_of};

use nester::Row;
use rows::told::Fragment;
use syntax::trees::Tree;
use words::texts::Range;

// What ends the text of a match: a placeholder that is not bound, a byte that does not fit, or a first rendering of some kind, between two
// places of the buffer, that has no parse.
#[derive(Clone, Copy)]
pub enum Event {
    Unbound,
    NoRoom,
    Asked { kind: u32, from: usize, to: usize },
}

// Where rendering goes on: at a place in the same row, or in a row that is nested in it, whose text begins at a place.
#[derive(Clone, Copy)]
pub enum Step {
    At(usize),
    Nested { row: usize, at: usize },
}

// The rows of a job, and the file that they match in.
#[derive(Clone, Copy)]
pub struct Matches<'a> {
    pub rows: &'a [Row],
    pub tree: Tree<'a>,
    pub text: &'a [u8],
}

impl<'a> Matches<'a> {
    ghost use Rattle.std.specs.Prelude.{◌^◌};
    ghost use Rattle.syntax.specs.Accessors.{range_of, element_at};
    ghost use Rattle.syntax.specs.Views.{tree_of};
    ghost use Rattle.nester.specs.Rows.{row_at};

    // The range of a row's node.
    #[tactic(auto, using(syntax::proofs::ViewLaws::range_itself, captures::proofs::BindingLaws::end_fits))]
    fn range(self, j: usize) -> Range
        requires { j < length self.rows.now }
        ensures value { result ≡ range_of (element_at (row_at self.entry.rows.now j).node (tree_of self.entry.tree)) }
        ensures fits { result.end < 2 ^ 32 }
    {
        self.tree.element(self.rows[j].node as usize).range()
    }
}

// A template whose paths are told in a module: its fragments in turn.
pub trait Template {
    ghost fragments: { Self → List texts.Fragment };

    fn len(&self) -> usize
        ensures { result ≡ length (fragments self.now) };

    fn fragment(&self, i: usize) -> Fragment<'_>
        requires { i < length (fragments self.now) }
        ensures { fragment_of result ≡ get_or (fragments self.now) i (texts.fixed []) };
}
