// What matching records. Document 01: "an array of eight bindings, by value, in pattern order".
#![tactic(auto)]

ghost use Rattle.std.specs.Prelude.{◌≡◌, true, false, List, ℕ, ◌+◌, ◌-◌, ◌≤◌, ◌<◌, length, take, drop};
ghost use Rattle.words.specs.Buffer.{laid};
ghost use Rattle.syntax.specs.Accessors.{text_of};
ghost use Rattle.syntax.specs.Views.{elems_of};
ghost use Rattle.captures.specs.Attempts.{Event, Bound, Noted, notes};
ghost use Rattle.captures.specs.Effects.{self_kind, kind_number, binding, nothing, moved_to, place_behind, recorded_one, recorded, laid_one};

use syntax::parts::Part;
use words::buffer;

// How a receiver's function takes it.
#[derive(Clone, Copy)]
pub enum SelfKind {
    Owned = 0,
    Ref = 1,
    RefMut = 2,
}

// The kind that a method call's fact names by its number.
impl From<u32> for SelfKind {
    ghost from_gives = { λ number kind. kind ≡ self_kind number };

    fn from(number: u32) -> SelfKind {
        match number {
            0 => SelfKind::Owned,
            1 => SelfKind::Ref,
            _ => SelfKind::RefMut,
        }
    }
}

// Its number.
impl From<SelfKind> for u32 {
    ghost from_gives = { λ kind number. number ≡ kind_number kind };

    fn from(kind: SelfKind) -> u32 {
        kind as u32
    }
}

// A placeholder's binding: its bytes in the file, and for a receiver how often it is dereferenced and how the function takes it.
#[derive(Clone, Copy)]
pub struct Binding {
    pub start: u32,
    pub end: u32,
    pub stars: u32,
    pub self_kind: SelfKind,
}

// The bindings so far, the place behind the comments noted so far, past the buffer's end where one did not fit, and whether they are laid or
// only measured. An attempt answers the state then, or none where it does not match.
#[derive(Clone, Copy)]
pub struct State {
    pub bindings: [Option<Binding>; 8],
    pub noted: usize,
    pub lays: bool,
}

// What one turn of a loop over siblings leaves of pattern and code, and the state then. A turn that does not match leaves none.
#[derive(Clone, Copy)]
pub struct Turn<'a> {
    pub p: Part<'a>,
    pub c: Part<'a>,
    pub state: State,
}

// The place behind n bytes more, or the one that is past the room where they do not fit.
fn place_behind(room: usize, at: usize, n: usize) -> usize
    requires { room < usize.MAX }
    ensures { result ≡ place_behind room at n }
{
    match at.checked_add(n) {
        Some(end) if end <= room => end,
        _ => room + 1,
    }
}

impl State {
    // No binding and no comment.
    pub fn new() -> State
        ensures { result ≡ nothing }
    {
        State {
            bindings: [None; 8],
            noted: 0,
            lays: true,
        }
    }

    // Binds a placeholder to the bytes from the start of one element to the end of another.
    #[tactic(auto, using(crate::proofs::BindingLaws::start_fits, crate::proofs::BindingLaws::end_fits))]
    pub fn bind(
        mut self,
        slot: usize,
        first: Part,
        last: Part,
        stars: u32,
        self_kind: SelfKind,
    ) -> State
        requires { slot < 8 }
        ensures { (room : ℕ) → result ≡ recorded_one room (Bound slot (binding (elems_of first.entry) (elems_of last.entry) stars self_kind)) self }
    {
        let binding = Binding {
            start: first.range().start as u32,
            end: last.range().end as u32,
            stars,
            self_kind,
        };
        self.bindings[slot] = Some(binding);
        self
    }

    // The same bindings, with comments laid, or only measured, from a place on.
    pub fn moved(self, noted: usize, lays: bool) -> State
        ensures { result ≡ moved_to noted lays self }
    {
        State {
            noted,
            lays,
            ..self
        }
    }

    // Notes the comment that a part begins with: its text is laid, or measured, behind those noted so far.
    pub fn note(self, c: Part, file: &[u8], out: &mut [u8]) -> State
        ensures out_len_unchanged { length out.new ≡ length out.old }
        ensures noted { result ≡ recorded_one (length out.old) (Noted (text_of file.now (elems_of c.entry))) self }
        ensures laid { out.new ≡ laid_one (Noted (text_of file.now (elems_of c.entry))) self out.old }
    {
        let text = c.text(file);
        let behind = place_behind(out.len(), self.noted, text.len());
        if self.lays {
            let _ = buffer::put(out, self.noted, text);
        }
        self.moved(behind, self.lays)
    }

    // Counts the comments noted since an earlier state once more.
    #[tactic(auto, using(crate::proofs::AttemptLaws::counted_once_more, crate::proofs::AttemptLaws::counted_full))]
    pub fn count_again(self, since: State, out: &[u8]) -> State
        ensures { (es : List Event) → self ≡ recorded (length out.now) es since → result ≡ recorded (length out.now) (notes es) self }
    {
        let room = out.len();
        if (self.noted <= room) & (since.noted <= self.noted) {
            let behind = place_behind(room, self.noted, self.noted - since.noted);
            return self.moved(behind, self.lays);
        }
        self
    }
}

// Whether the bytes between two places fit once more at a third.
pub fn fits(from: usize, end: usize, at: usize, room: usize) -> bool
    ensures from_le_end { result ≡ true → (from ≤ end) × (at + (end - from) ≤ room) }
    ensures room_bound { result ≡ false → from ≤ end → room < at + (end - from) }
{
    match (end.checked_sub(from), room.checked_sub(at)) {
        (Some(n), Some(left)) => n <= left,
        _ => false,
    }
}

// Lays bytes of the buffer once more, at a place behind them.
pub fn lay_again(out: &mut [u8], from: usize, n: usize, at: usize)
    requires { (from + n ≤ at) × (at + n ≤ length out.old) }
    ensures { out.new ≡ laid out.old at (take n (drop from out.old)) }
{
    out.copy_within(from..from + n, at);
}
