// nester.rs of docs/src: matches are kept inside each other, and those that collide are dropped. The matches are rows by element and rule,
// not by depth: on one line of ancestors both orders agree.
#![tactic(auto)]

ghost use Rattle.std.specs.Prelude.{◌≡◌, ◌↔◌, ℕ, ◌+◌, ◌<◌, ◌≤◌, length, IfSome, IsTrue};
ghost use Rattle.syntax.specs.Trees.{size};
ghost use Rattle.syntax.specs.Views.{tree_of};
ghost use Rattle.nester.specs.Nest.{over, holds, holder};
ghost use Rattle.nester.specs.Rows.{row_at, Candidates, Held, IsFresh, IsMet, Clear, Settles, Nested};

use captures::Binding;
use syntax::trees::Tree;

// What has become of a candidate: it does not match, or its match is not kept, or is kept outermost or inside that of a row, in the captured
// range of a slot. Before rows are nested no match is kept.
#[derive(Clone, Copy, PartialEq, Eq)]
pub enum Nesting {
    NoMatch,
    NotKept,
    Outermost,
    Inside { row: u16, slot: u8 },
}

// A candidate: its node and rule, what has become of it, and its match's bindings; and, for rendering, whether the match has comments, the
// number behind the last row inside it, and its node's module. A job has up to 1,024 of them on the stack, so that they are small.
#[derive(Clone, Copy)]
pub struct Row {
    pub node: u16,
    pub has_comments: bool,
    pub state: Nesting,
    pub end: u16,
    pub rule: u32,
    pub module: u32,
    pub bindings: [Option<Binding>; 8],
}

const _: () = prove!(size_of::<Row>() == 180);

// Whether a captured range holds a range.
fn holds(captured: &Option<Binding>, start: usize, end: usize) -> bool
    ensures { result ≡ holds captured.now start end }
{
    captured.is_some_and(|b| (b.start as usize <= start) & (end <= b.end as usize))
}

impl Row {
    // The first captured range that holds a range.
    fn holder(&self, start: usize, end: usize) -> Option<usize>
        ensures value { result ≡ holder self.now.bindings start end }
        ensures few { IfSome result (λ slot. slot < 8) }
    {
        self.bindings.iter().position(|b| holds(b, start, end))
    }
}

// Whether an element is another or an ancestor of it.
fn is_over(tree: Tree, i: usize, j: usize) -> bool
    requires i_bound { i < size (tree_of tree) }
    requires j_bound { j < size (tree_of tree) }
    ensures { result ≡ over (tree_of tree.entry) i j }
{
    (i <= j) & (j < i + tree.at(i).width())
}

// Whether a row is kept where a match has come to, on the match's node or an ancestor.
fn meets(tree: Tree, row: &Row, node: usize, place: Nesting) -> bool
    requires row_bound { row.now.node < size (tree_of tree) }
    requires node_bound { node < size (tree_of tree) }
    ensures { IsTrue result ↔ IsMet (tree_of tree.entry) row.now node place }
{
    (row.state == place) & is_over(tree, row.node as usize, node)
}

// The match of row n comes to the rows before it. Places that hold come first, so one pass is enough; the first rows are passed over where
// it meets none of them.
fn settle(tree: Tree, rows: &[Row], n: usize, first: usize) -> Nesting
    requires candidates { Candidates (tree_of tree) rows.now }
    requires n_bound { n < length rows.now }
    requires held { Held rows.now n }
    requires first_le_n { (first ≤ n) × Clear (tree_of tree) rows.now (row_at rows.now n).node first }
    ensures { Settles (tree_of tree.entry) rows.now n result }
{
    let node = rows[n].node as usize;
    let range = tree.element(node).range();
    let mut place = Nesting::Outermost;
    for i in first..n {
        let row = &rows[i];
        if meets(tree, row, node, place) {
            match row.holder(range.start, range.end) {
                None => return Nesting::NotKept,
                Some(slot) => place = Nesting::Inside {
                    row: i as u16,
                    slot: slot as u8,
                },
            }
        }
    }
    place
}

// Nests the matches of rows: each is kept outermost, kept in a captured range of another, or dropped. Rows are by element and no two that
// are kept outermost are on one line, so that a match can meet none before the last of these.
pub fn nest_and_remove_collisions(tree: Tree, rows: &mut [Row])
    requires candidates { Candidates (tree_of tree) rows.old }
    requires by_index { (i : ℕ) → i < length rows.old → IsFresh (row_at rows.old i).state }
    ensures { Nested (tree_of tree.entry) rows.old rows.new }
{
    let mut last = 0;
    for i in 0..rows.len() {
        if rows[i].state == Nesting::NotKept {
            let state = settle(tree, rows, i, last);
            rows[i].state = state;
            if state == Nesting::Outermost {
                last = i;
            }
        }
    }
}
