// The fragments of a template that is ready.
ghost use Rattle.std.specs.Prelude.{◌≡◌, ◌<◌, ◌≤◌, [], map, length, take, slice_get};
ghost use Rattle.std.specs.List.{AllByRecursion};
ghost use Rattle.facts.specs.Facts.{facts_of};
ghost use Rattle.readying.specs.Templates.{fact_text_of};
ghost use Rattle.readying.specs.Ready.{told_fragment, IsLow};

use crate::ReadyTemplate;
use facts::Fact;
use replacing::Template;
use rows::told::{Fragment, Hole};
use std::marker::Model;
use templates::Piece;
use words::slices;
use words::texts::Range;

// The fact at a place.
#[tactic(auto, using(facts::proofs::FactLaws::fact_at_place, facts::proofs::FactLaws::length_facts))]
fn fact_at(words: &[u32], place: u16) -> Option<Fact>
    ensures { result ≡ slice_get (facts_of words.now) place }
{
    let place = place as usize;
    if words.len() / 4 <= place {
        return None;
    }
    Some(Fact::read(slices::tail(words, 4 * place)))
}

// The text that a fact has in a fact text.
fn fact_text_of(fact_text: &[u8], fact: Option<Fact>) -> &[u8]
    ensures { result.now ≡ fact_text_of fact_text.now fact }
{
    let Some(fact) = fact else {
        return &[];
    };
    let start = fact.second as usize;
    let end = start + fact.third as usize;
    Range { start, end }.of(fact_text)
}

// The fragments in turn.
#[derive(Drop)]
pub struct Fragments<'a> {
    pieces: &'a [Piece],
    code: &'a [u8],
    facts: &'a [u32],
    fact_text: &'a [u8],
}

impl<'a> Model for Fragments<'a> {
    ghost use Rattle.std.specs.Prelude.{List, map};
    ghost use Rattle.std.specs.List.{AllByRecursion};
    ghost use Rattle.rendering.specs.Texts.{Fragment};
    ghost use Rattle.readying.specs.Ready.{told_fragment, IsLow};

    ghost Value = { List Fragment };

    ghost view = { λ f. map (told_fragment f.fact_text.now f.code.now f.facts.now) f.pieces.now };

    ghost invariant = { λ f. AllByRecursion IsLow f.pieces.now };
}

impl<'a> ReadyTemplate<'a> {
    // Its fragments, where its pieces are the first of a table, over a fact text.
    pub fn fragments(self, pieces: &'a [Piece], fact_text: &'a [u8]) -> Fragments<'a>
        requires within { self.count ≤ length pieces.now }
        requires low { AllByRecursion IsLow (take self.count pieces.now) }
        ensures { result ≡ map (told_fragment fact_text.now self.entry.code.now self.entry.facts.now) (take self.entry.count pieces.now) }
    {
        Fragments {
            pieces: &pieces[..self.count],
            code: self.code,
            facts: self.facts,
            fact_text,
        }
    }
}

impl Template for Fragments<'_> {
    ghost fragments = { λ f. f };

    fn len(&self) -> usize {
        self.pieces.len()
    }

    #[tactic(auto, using(crate::proofs::TellingLaws::told_get, crate::proofs::TellingLaws::low_get))]
    fn fragment(&self, i: usize) -> Fragment<'_> {
        let pieces = self.pieces;
        match pieces[i] {
            Piece::Text { start, end } => {
                let range = Range {
                    start: start as usize,
                    end: end as usize,
                };
                Fragment::Fixed(range.of(self.code))
            }
            Piece::Path(place) => {
                Fragment::Fixed(fact_text_of(self.fact_text, fact_at(self.facts, place)))
            }
            Piece::Hole { slot, is_receiver } => Fragment::Captured(Hole { slot, is_receiver }),
        }
    }
}
