// Token lists: the tokens of a list of words, and whether the list is well-formed.
#![tactic(auto)]

ghost use Rattle.std.specs.Prelude.{◌≡◌, ◌≤◌, true, length, ◌∷◌, []};
ghost use Rattle.std.specs.Iterator.{YieldsFirst, item_count};
ghost use Rattle.tokens.specs.Tokens.{token_text, tokens_from, is_token_word, all_token_words, total_length, is_token_list};

use std::marker::Model;
use syntax::kinds::TOKENS;
use words::fields;
use words::fields::WordKind;
use words::texts::Range;

// A token of a list: its kind, and where its text stands in the list's text.
#[derive(Clone, Copy)]
pub struct Token {
    pub kind: u32,
    pub range: Range,
}

impl Token {
    // Its text in the list's text.
    pub fn text(self, text: &[u8]) -> &[u8]
        ensures { result.now ≡ token_text text.now self }
    {
        self.range.of(text)
    }
}

// A list of tokens: their words, and the text that their texts fill where it is well-formed.
#[derive(Clone, Copy)]
pub struct TokenList<'a> {
    pub words: &'a [u32],
    pub text: &'a [u8],
}

impl<'a> TokenList<'a> {
    // Whether words and text are a token list: at most 255 tokens, whose texts fill the text.
    #[tactic(auto, unfolding(crate::specs::Tokens::is_token_list))]
    pub fn is_well_formed(self) -> bool
        ensures value { result ≡ is_token_list self.entry.words.now self.entry.text.now }
        ensures few { result ≡ true → length self.entry.words.now ≤ 255 }
    {
        if 255 < self.words.len() {
            return false;
        }
        are_token_words(self.words) && total_length(self.words) == self.text.len()
    }

    // The tokens in order.
    #[tactic(auto, using(crate::proofs::Laws::length_tokens))]
    pub fn tokens(self) -> Tokens<'a>
        requires { length self.words.now ≤ 255 }
        ensures value { result ≡ tokens_from self.entry.words.now 0 }
        ensures few { length result ≤ 255 }
    {
        Tokens {
            words: self.words,
            at: 0,
        }
    }
}

// The tokens of a list that are left, seen as the list of them.
#[derive(Clone, Drop)]
pub struct Tokens<'a> {
    words: &'a [u32],
    at: usize,
}

impl<'a> Model for Tokens<'a> {
    ghost use Rattle.std.specs.Prelude.{List, ◌+◌, ◌*◌, ◌≤◌, length};
    ghost use Rattle.tokens.specs.declared.Token.{Token};
    ghost use Rattle.tokens.specs.Tokens.{tokens_from};

    ghost Value = { List Token };

    ghost view = { λ s. tokens_from s.words.now s.at };

    ghost invariant = { λ s. s.at + 65535 * length s.words.now ≤ 16711425 };
}

impl<'a> Iterator for Tokens<'a> {
    type Item = Token;

    ghost next_gives = { YieldsFirst (λ left. left) };

    ghost remaining = { item_count (λ left. left) };

    #[tactic(auto, unfolding(crate::specs::Tokens::tokens_from))]
    fn next(&mut self) -> Option<Token> {
        let (_, rest) = self.words.split_first()?;
        let start = self.at;
        let end = start + fields::size(self.words);
        let token = Token {
            kind: fields::syntax_kind(self.words),
            range: Range { start, end },
        };
        self.words = rest;
        self.at = end;
        Some(token)
    }
}

// Whether a word is a token's.
fn is_token_word(word: u32) -> bool
    ensures { result ≡ is_token_word (word ∷ []) }
{
    let c = &[word];
    fields::has_kind(c, 0, WordKind::Token)
        & TOKENS.contains(fields::syntax_kind(c))
        & (1 <= fields::size(c))
}

// Whether all words are.
fn are_token_words(words: &[u32]) -> bool
    ensures { result ≡ all_token_words words.now }
{
    words.iter().all(|word| is_token_word(*word))
}

// How many bytes the texts of all tokens have.
#[tactic(auto, using(crate::proofs::Laws::length_words))]
fn total_length(words: &[u32]) -> usize
    requires { length words.now ≤ 255 }
    ensures { result ≡ total_length words.now }
{
    words.iter().map(|word| fields::size(&[*word])).sum()
}
