// The bytes of an answer, and whether they are the expected ones.
use arrayvec::ArrayVec;
use edits::EditedNumbers;
use ssr::list_answers::{NamedPlaceholder, RawCode, ReadTokens};
use ssr::match_answers::{BoundPlaceholder, MatchedNode};
use ssr::rule_answers::{BuiltRules, ResolvedElement};

// Whether bytes are the expected ones, and then 0.
pub fn is_expected(found: &[u8], expected: &[u8]) -> bool {
    found
        .strip_prefix(expected)
        .is_some_and(|rest| rest.iter().all(|byte| *byte == 0))
}

// The bytes of an answer's first fields. No answer has more than 172.
#[derive(Drop)]
pub struct Bytes {
    laid: ArrayVec<u8, 172>,
}

impl Bytes {
    // None where there is no room.
    fn put(&mut self, bytes: &[u8]) -> Option<()> {
        self.laid.try_extend_from_slice(bytes).ok()
    }

    fn word(&mut self, word: u32) -> Option<()> {
        self.put(&word.to_le_bytes())
    }

    fn number(&mut self, number: usize) -> Option<()> {
        self.word(low(number))
    }

    fn words(&mut self, words: &[u32]) -> Option<()> {
        for word in words {
            self.word(*word)?;
        }
        Some(())
    }

    // Words, and then 0, nine in all: so many has the longest answer that is only words.
    fn nine_words(&mut self, words: &[u32]) -> Option<()> {
        self.words(words)?;
        for _ in words.len()..9 {
            self.word(0)?;
        }
        Some(())
    }
}

// A number is stored by its four lowest bytes.
fn low(number: usize) -> u32 {
    (number % 0x1_0000_0000) as u32
}

// What an operation answers.
pub trait Answer {
    // Lays its fields in their order.
    fn lay(&self, out: &mut Bytes) -> Option<()>;
}

// Whether an answer has the expected bytes, and then 0.
pub fn is_answer<A: Answer>(answer: &A, expected: &[u8]) -> bool {
    let mut found = Bytes {
        laid: ArrayVec::new(),
    };
    answer.lay(&mut found).is_some() && is_expected(found.laid.as_slice(), expected)
}

impl Answer for u32 {
    fn lay(&self, out: &mut Bytes) -> Option<()> {
        out.word(*self)
    }
}

impl Answer for NamedPlaceholder {
    fn lay(&self, out: &mut Bytes) -> Option<()> {
        out.number(self.start)?;
        out.number(self.end)?;
        out.number(self.constraints)
    }
}

impl Answer for ReadTokens {
    fn lay(&self, out: &mut Bytes) -> Option<()> {
        out.word(self.refusal)?;
        out.number(self.count)?;
        for placeholder in &self.placeholders {
            placeholder.lay(out)?;
        }
        out.number(self.constraints)?;
        out.put(&self.nots)
    }
}

impl Answer for RawCode {
    fn lay(&self, out: &mut Bytes) -> Option<()> {
        out.word(self.refusal)?;
        out.number(self.length)
    }
}

impl Answer for BuiltRules {
    fn lay(&self, out: &mut Bytes) -> Option<()> {
        out.nine_words(&[
            self.refusal,
            low(self.rules),
            self.found,
            low(self.pair),
            low(self.form),
            self.template,
        ])
    }
}

impl Answer for ResolvedElement {
    fn lay(&self, out: &mut Bytes) -> Option<()> {
        out.nine_words(&[
            self.refusal,
            self.found,
            self.resolved,
            self.resolution,
            self.call,
            self.function,
            self.typed,
            self.qualifier_type,
            self.contains_self,
        ])
    }
}

impl Answer for EditedNumbers {
    fn lay(&self, out: &mut Bytes) -> Option<()> {
        out.nine_words(&[self.refusal, self.asked, self.kind, low(self.length)])
    }
}

impl Answer for BoundPlaceholder {
    fn lay(&self, out: &mut Bytes) -> Option<()> {
        out.words(&[self.bound, self.start, self.end, self.stars, self.self_kind])
    }
}

impl Answer for MatchedNode {
    fn lay(&self, out: &mut Bytes) -> Option<()> {
        out.word(self.refusal)?;
        out.word(self.matched)?;
        out.number(self.length)?;
        for binding in &self.bindings {
            binding.lay(out)?;
        }
        Some(())
    }
}
