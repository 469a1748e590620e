// Texts: ranges of the file's or of the rule's, and the names of stand-ins.
ghost use Rattle.std.specs.Prelude.{◌≡◌};
ghost use Rattle.words.specs.Texts.{part, text_of};

use crate::{fields, slices};

// Which text an element's range is in.
#[derive(Clone, Copy)]
pub enum Source {
    File,
    Rule,
}

// The bytes of an element, a placeholder or a name, from the start up to the end.
#[derive(Clone, Copy, Default)]
pub struct Range {
    pub start: usize,
    pub end: usize,
}

impl Range {
    // The part of a text that it is; none where it is no range of the text.
    pub fn of(self, text: &[u8]) -> &[u8]
        ensures { result.now ≡ part text.now self.start self.end }
    {
        slices::part_of(text, self.start, self.end)
    }
}

// The text of the element that the part c begins with.
pub fn text_of<'a>(file: &'a [u8], rule: &'a [u8], source: Source, c: &[u32]) -> &'a [u8]
    ensures { result.now ≡ text_of file.now rule.now source c.now }
{
    let text = match source {
        Source::File => file,
        Source::Rule => rule,
    };
    slices::part_of(text, fields::start(c), fields::end(c))
}

// What stand-in names begin with.
pub const STAND_IN_PREFIX: &[u8] = b"__placeholder_";
