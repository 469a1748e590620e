// When two tokens agree, and `attempt_match_token` of docs/src/src/matching.rs.
ghost use Rattle.std.specs.Prelude.{◌≡◌};
ghost use Rattle.syntax.specs.Accessors.{text_of};
ghost use Rattle.syntax.specs.Siblings.{kind_of};
ghost use Rattle.syntax.specs.Views.{elems_of, IsWithin};
ghost use Rattle.matcher.specs.Matcher.{matcher_of};
ghost use Rattle.matcher.specs.Tokens.{agree, same_name, same_stop, skips, is_extra, past_separator, is_same_token, TokenIs};

use crate::Matcher;
use syntax::kinds::{COMMA, R_BRACK, R_CURLY, R_PAREN};
use syntax::parts::Part;

// A separator that may stand, or be left out, right before a closer, by their kinds.
#[derive(Clone, Copy)]
pub struct Skip {
    pub separator: u32,
    pub closer: u32,
}

// A comma before `)`, `}` or `]`.
pub const COMMA_SHEET: [Skip; 3] = [
    Skip {
        separator: COMMA,
        closer: R_PAREN,
    },
    Skip {
        separator: COMMA,
        closer: R_CURLY,
    },
    Skip {
        separator: COMMA,
        closer: R_BRACK,
    },
];

// Whether a separator of one kind may stand, or be left out, before a closer of another.
pub fn skips(sheet: &[Skip], kind: u32, next: u32) -> bool
    ensures { result ≡ skips sheet.now kind next }
{
    sheet
        .iter()
        .any(|pair| pair.separator == kind && pair.closer == next)
}

// A token as it is compared: its kind, and its text.
#[derive(Clone, Copy)]
pub struct TokenText<'a> {
    pub kind: u32,
    pub text: &'a [u8],
}

impl<'a> TokenText<'a> {
    // The token that a part begins with, in the text that it is of.
    pub fn of(c: Part, text: &'a [u8]) -> TokenText<'a>
        ensures kind_value { result.kind ≡ kind_of (elems_of c.entry) }
        ensures text_value { result.text.now ≡ text_of text.now (elems_of c.entry) }
    {
        TokenText {
            kind: c.kind(),
            text: c.text(text),
        }
    }

    // Whether two tokens agree.
    pub fn agrees(self, other: TokenText) -> bool
        ensures { result ≡ agree self.entry.kind self.entry.text.now other.entry.kind other.entry.text.now }
    {
        self.kind == other.kind && self.text == other.text
    }

    // Whether two names of record fields are the same.
    pub fn is_same_name(self, other: TokenText) -> bool
        ensures { result ≡ same_name self.entry.kind self.entry.text.now other.entry.kind other.entry.text.now }
    {
        self.text == other.text
    }

    // Whether a token of the code is this one of the pattern, at which a run stops.
    pub fn is_same_stop(self, other: TokenText) -> bool
        ensures { result ≡ same_stop self.entry.kind self.entry.text.now other.entry.kind other.entry.text.now }
    {
        self.text == other.text
    }
}

impl<'a> Matcher<'a> {
    // Whether the code's token is a separator that the pattern, about to close something, does without.
    fn is_extra(&self, p: Part, c: Part) -> bool
        ensures { result ≡ is_extra self.now.sheet.now (elems_of p.entry) (elems_of c.entry) }
    {
        p.is_token() && skips(self.sheet, c.kind(), p.kind())
    }

    // What is left of the pattern behind its separator, where the code, about to close something, does without.
    fn past_separator<'p>(&self, p: Part<'p>, c: Part) -> Part<'p>
        ensures value { elems_of result ≡ past_separator self.now.sheet.now (elems_of p.entry) (elems_of c.entry) }
        ensures result_in_bounds { IsWithin result p.entry }
    {
        if p.is_token() && skips(self.sheet, p.kind(), c.kind()) {
            return p.rest().skip_trivia();
        }
        p
    }

    // Whether the pattern's next element is a token that agrees with the code's.
    fn is_same_token(&self, p: Part, c: Part) -> bool
        ensures { result ≡ is_same_token self.now.rule.now self.now.file.now (elems_of p.entry) (elems_of c.entry) }
    {
        p.is_token() && TokenText::of(p, self.rule).agrees(TokenText::of(c, self.file))
    }

    // Matches a token of the code that is no trivia with the pattern's next element that is none: what is left of the pattern then.
    pub fn attempt_match_token<'p>(&self, p: Part<'p>, c: Part) -> Option<Part<'p>>
        ensures { TokenIs (matcher_of self.now) p.entry c.entry result }
    {
        if self.is_extra(p, c) {
            return Some(p);
        }
        let q = self.past_separator(p, c);
        if self.is_same_token(q, c) {
            return Some(q.rest());
        }
        None
    }
}
