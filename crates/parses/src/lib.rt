// The parses that are handed in: their list, the look-up by kind and text, and the node ranges.
#![tactic(auto)]

mod parts; // parts.rt: the words from each parse on

ghost use Rattle.std.specs.Prelude.{◌≡◌, true, length, option_map, ◌∷◌, [], MatchOption};
ghost use Rattle.parses.specs.Ranges.{range_at, ranges_in, is_from, is_among};
ghost use Rattle.parses.specs.Parses.{is_parse_list, parse_at, parses_of, is_of, lookup};
ghost use Rattle.std.specs.Iterator.{YieldsFirst, item_count};

pub use parts::{Parts, parse_words};
use std::marker::Model;
use words::fields;

// Whether a node range is from start to end.
fn is_from(range: &[u32; 2], start: usize, end: usize) -> bool
    ensures { result ≡ is_from start end (range_at range.now) }
{
    (fields::value(range, 0) as usize == start) & (fields::value(range, 1) as usize == end)
}

// Whether one of the node ranges is from start to end.
pub fn is_node_range(ranges: &[[u32; 2]], start: usize, end: usize) -> bool
    ensures { result ≡ is_among (ranges_in ranges.now) start end }
{
    ranges.iter().any(|range| is_from(range, start, end))
}

// A parse: its template root kind, its text, and its node ranges, of each the words of its start and its end.
#[derive(Drop)]
pub struct Parse<'a> {
    pub kind: u32,
    pub text: &'a [u8],
    pub ranges: &'a [[u32; 2]],
}

impl<'a> Model for Parse<'a> {
    ghost use Rattle.parses.specs.Ranges.{ranges_in};
    ghost use Rattle.parses.specs.Parses as spec;

    ghost Value = { spec.Parse };

    ghost view = { λ p. record { kind = p.kind; text = p.text.now; ranges = ranges_in p.ranges.now } };
}

impl<'a> Parse<'a> {
    // Whether it is of a kind and a text.
    pub fn is_of(&self, kind: u32, text: &[u8]) -> bool
        ensures { result ≡ is_of kind text.now self.now }
    {
        self.kind == kind && self.text == text
    }
}

// Well-formed parses: their words, and the text that these speak of.
#[derive(Drop)]
pub struct Parses<'a> {
    words: &'a [u32],
    text: &'a [u8],
}

impl<'a> Model for Parses<'a> {
    ghost use Rattle.std.specs.Prelude.{◌≡◌, true, List, length};
    ghost use Rattle.parses.specs.Parses as spec;

    ghost Value = { List spec.Parse };

    ghost view = { λ p. spec.parses_of p.words.now p.text.now };

    ghost invariant = { λ p. spec.is_parse_list (length p.text.now) p.words.now ≡ true };
}

// Whether the parse that a part of the words begins with is of a kind and a text. Its text is cut only where the kind is the same: most parses
// are passed over by their kind.
fn is_parse_of(part: &[u32], parse_text: &[u8], kind: u32, text: &[u8]) -> bool
    ensures { result ≡ is_of kind text.now (parse_at parse_text.now part.now) }
{
    fields::syntax_kind(part) == kind && parts::text_of(part, parse_text) == text
}

impl<'a> Parses<'a> {
    pub fn new(words: &'a [u32], text: &'a [u8]) -> Parses<'a>
        requires { is_parse_list (length text.now) words.now ≡ true }
        ensures { result ≡ parses_of words.now text.now }
    {
        Parses { words, text }
    }

    // The first parse, and the list of those behind it.
    #[tactic(auto, using(crate::proofs::ParseLaws::parses_cons, crate::proofs::ParseLaws::parses_none, crate::proofs::ParseLaws::list_behind))]
    pub fn split_first(&self) -> Option<(Parse<'a>, Parses<'a>)>
        ensures { MatchOption result (self.now ≡ []) (λ r. self.now ≡ r.0 ∷ r.1) }
    {
        if self.words.is_empty() {
            return None;
        }
        let first = Parse {
            kind: fields::syntax_kind(self.words),
            text: parts::text_of(self.words, self.text),
            ranges: parts::ranges_of(self.words),
        };
        let rest = Parses {
            words: parts::behind(self.words),
            text: self.text,
        };
        Some((first, rest))
    }

    pub fn iter(&self) -> Iter<'a>
        ensures { result ≡ self.now }
    {
        Iter {
            rest: Parses {
                words: self.words,
                text: self.text,
            },
        }
    }

    // The node ranges of the first parse of a kind and a text.
    pub fn find_parse(&self, kind: u32, text: &[u8]) -> Option<&'a [[u32; 2]]>
        ensures { option_map (λ r. ranges_in r.now) result ≡ lookup self.now kind text.now }
    {
        for part in Parts::of(self.words) {
            if is_parse_of(part, self.text, kind, text) {
                return Some(parts::ranges_of(part));
            }
        }
        None
    }
}

// The parses that are left of a list.
#[derive(Drop)]
pub struct Iter<'a> {
    rest: Parses<'a>,
}

impl<'a> Model for Iter<'a> {
    ghost use Rattle.std.specs.Prelude.{List};
    ghost use Rattle.parses.specs.Parses as spec;

    ghost Value = { List spec.Parse };

    ghost view = { λ i. i.rest };
}

impl<'a> Iter<'a> {
    pub fn as_parses(&self) -> &Parses<'a>
        ensures { result.now ≡ self.now }
    {
        &self.rest
    }
}

impl<'a> Iterator for Iter<'a> {
    type Item = Parse<'a>;

    ghost next_gives = { YieldsFirst (λ s. s) };

    ghost remaining = { item_count (λ s. s) };

    fn next(&mut self) -> Option<Parse<'a>> {
        let (first, rest) = self.rest.split_first()?;
        self.rest = rest;
        Some(first)
    }
}
