// The words from each parse on. Every function takes a part of a word list that begins at the parse asked about, and is total.
ghost use Rattle.std.specs.Prelude.{◌≡◌, ◌*◌, drop};
ghost use Rattle.std.specs.Iterator.{YieldsFirstRef, item_count};
ghost use Rattle.words.specs.Fields.{start_of, end_of};
ghost use Rattle.words.specs.Texts.{part};
ghost use Rattle.parses.specs.Ranges.{ranges_of, ranges_in};
ghost use Rattle.parses.specs.Parses.{parse_words, range_words, parts_from};

use std::marker::Model;
use words::{fields, slices};

// How many words the parse has.
pub fn parse_words(words: &[u32]) -> usize
    ensures { result ≡ parse_words words.now }
{
    3 + 2 * fields::size(words)
}

// What stands behind it.
pub fn behind(words: &[u32]) -> &[u32]
    ensures { result.now ≡ drop (parse_words words.now) words.now }
{
    slices::tail(words, parse_words(words))
}

// Its text.
pub fn text_of<'a>(words: &[u32], text: &'a [u8]) -> &'a [u8]
    ensures { result.now ≡ part text.now (start_of words.now) (end_of words.now) }
{
    slices::part_of(text, fields::start(words), fields::end(words))
}

// Its node ranges, as far as their words are there.
#[tactic(auto, using(crate::proofs::RangeLaws::ranges_pairs, std::proofs::lemmas::List::take_min))]
pub fn ranges_of(words: &[u32]) -> &[[u32; 2]]
    ensures { ranges_in result.now ≡ ranges_of (range_words words.now) }
{
    let behind = slices::tail(words, 3);
    let pairs = &behind[..(2 * fields::size(words)).min(behind.len())];
    let (pairs, _) = pairs.as_chunks::<2>();
    pairs
}

// The parts of a list of words that begin at each parse.
#[derive(Drop)]
pub struct Parts<'a> {
    words: &'a [u32],
}

impl<'a> Model for Parts<'a> {
    ghost use Rattle.std.specs.Prelude.{ℕ, List};
    ghost use Rattle.parses.specs.Parses.{parts_from};

    ghost Value = { List (List ℕ) };

    ghost view = { λ p. parts_from 0 p.words.now };
}

impl<'a> Parts<'a> {
    pub fn of(words: &'a [u32]) -> Parts<'a>
        ensures { result ≡ parts_from 0 words.now }
    {
        Parts { words }
    }
}

impl<'a> Iterator for Parts<'a> {
    type Item = &'a [u32];

    ghost next_gives = { YieldsFirstRef (λ s. s) };

    ghost remaining = { item_count (λ s. s) };

    #[tactic(auto, using(crate::proofs::ParseLaws::parts_cons, crate::proofs::ParseLaws::parts_none))]
    fn next(&mut self) -> Option<&'a [u32]> {
        if self.words.is_empty() {
            return None;
        }
        let part = self.words;
        self.words = behind(part);
        Some(part)
    }
}
