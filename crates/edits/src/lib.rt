// The edit list's words, and the answers of a job with the buffer then.
#![tactic(auto)]

ghost use Rattle.std.specs.Prelude.{◌≡◌, Ok, ◌+◌, ◌≤◌, length, take, drop};
ghost use Rattle.words.specs.Buffer.{used_of, filled, laid, place_after, laid_if_room};
ghost use Rattle.edits.specs.Edits.{edit_words};
ghost use Rattle.edits.specs.Answers.{edited_numbers};

use errors::Refusal;
use words::buffer;
use words::fields::WordKind;

// What came of a job that is not refused: Asked has the kind and the length of the text, an edit list its length.
#[derive(Clone, Copy)]
pub enum Edited {
    Asked { kind: u32, length: usize },
    Edits { length: usize },
}

// 01's number and values of an answer: a refusal's number, whether a text is asked for, its kind, and the length of that text or of the edit list.
#[repr(C)]
#[derive(Clone, Copy)]
pub struct EditedNumbers {
    pub refusal: u32,
    pub asked: u32,
    pub kind: u32,
    pub length: usize,
}

// An answer in numbers. What a case does not have is 0.
impl From<Result<Edited, Refusal>> for EditedNumbers {
    ghost from_gives = { λ answer numbers. numbers ≡ edited_numbers answer };

    fn from(answer: Result<Edited, Refusal>) -> EditedNumbers {
        match answer {
            Err(refused) => EditedNumbers {
                refusal: u32::from(refused),
                asked: 0,
                kind: 0,
                length: 0,
            },
            Ok(Edited::Asked { kind, length }) => EditedNumbers {
                refusal: 0,
                asked: 1,
                kind,
                length,
            },
            Ok(Edited::Edits { length }) => EditedNumbers {
                refusal: 0,
                asked: 0,
                kind: 0,
                length,
            },
        }
    }
}

// What an edit of the list begins with: its range in the file, and how many bytes its text has, which stands behind.
#[derive(Clone, Copy)]
pub struct EditHead {
    pub start: u32,
    pub end: u32,
    pub length: u32,
}

impl EditHead {
    // Its three words.
    fn words(self) -> [u8; 12]
        ensures { result ≡ edit_words self.start self.end self.length }
    {
        let mut words = [0; 12];
        buffer::put_word(&mut words, 0, WordKind::EditStart.word(self.start));
        buffer::put_word(&mut words, 4, WordKind::EditEnd.word(self.end));
        buffer::put_word(&mut words, 8, WordKind::EditLength.word(self.length));
        words
    }

    // Lays them; where they do not fit, nothing changes.
    pub fn put(self, out: &mut [u8], at: usize) -> Option<usize>
        ensures value { result ≡ place_after (length out.old) at 12 }
        ensures out_after { out.new ≡ laid_if_room out.old at (edit_words self.start self.end self.length) }
    {
        buffer::put(out, at, &self.words())
    }
}

// The n bytes from a place on stand at the front then.
fn move_to_front(out: &mut [u8], from: usize, n: usize)
    requires { from + n ≤ length out.old }
    ensures { out.new ≡ laid out.old 0 (take n (drop from out.old)) }
{
    out.copy_within(from..from + n, 0);
}

// The answer Asked: the buffer holds the n bytes of the text that stand at a place.
pub fn ask(out: &mut [u8], kind: u32, from: usize, n: usize) -> Result<Edited, Refusal>
    requires { from + n ≤ used_of (length out.old) }
    ensures value { result ≡ Ok (Edited.Asked kind n) }
    ensures out_after { out.new ≡ filled out.old (take n (drop from out.old)) }
{
    move_to_front(out, from, n);
    buffer::finish(out, n);
    Ok(Edited::Asked { kind, length: n })
}

// An edit list that ends at a place.
pub fn end(out: &mut [u8], at: usize) -> Result<Edited, Refusal>
    requires { at ≤ used_of (length out.old) }
    ensures value { result ≡ Ok (Edited.Edits at) }
    ensures out_after { out.new ≡ filled out.old (take at out.old) }
{
    buffer::finish(out, at);
    Ok(Edited::Edits { length: at })
}
