// Whether the parses that are handed in are well-formed and none is repeated: 28.
mod repeats; // repeats.rt: whether kind and text come twice

ghost use Rattle.std.specs.Prelude.{◌≡◌, MatchResult};
ghost use Rattle.errors.specs.Refusals.{ok, err};
ghost use Rattle.parses.specs.Ranges.{is_range, are_ranges};
ghost use Rattle.parses.specs.Parses.{is_parse, is_parse_list, parses_of, parses_outcome};

use errors::Refusal;
use parses::{Parses, Parts, parse_words};
use words::fields::WordKind;
use words::{fields, slices};

// Whether a part begins with a range inside n bytes.
fn is_range(words: &[u32], n: usize) -> bool
    ensures { result ≡ is_range n words.now }
{
    fields::has_kind(words, 0, WordKind::Start)
        & fields::has_kind(words, 1, WordKind::End)
        & (fields::value(words, 0) <= fields::value(words, 1))
        & (fields::value(words, 1) as usize <= n)
}

// Whether all words are those of ranges inside n bytes.
#[tactic(auto, using(crate::proofs::RangeLaws::ranges_even, crate::proofs::RangeLaws::ranges_odd))]
fn are_ranges(words: &[u32], n: usize) -> bool
    ensures { result ≡ are_ranges n words.now }
{
    let (pairs, half) = words.as_chunks::<2>();
    half.is_empty() && pairs.iter().all(|pair| is_range(pair, n))
}

// Whether a part begins with a well-formed parse over a parse text of n bytes.
fn is_parse(words: &[u32], n: usize) -> bool
    ensures { result ≡ is_parse n words.now }
{
    let Some(ranges) = words.get(3..parse_words(words)) else {
        return false;
    };
    if fields::has_kind(words, 0, WordKind::Parse)
        & (fields::syntax_kind(words) != 0)
        & is_range(slices::tail(words, 1), n)
    {
        return are_ranges(
            ranges,
            fields::end(words).saturating_sub(fields::start(words)),
        );
    }
    false
}

// Whether all words are those of well-formed parses over a parse text of n bytes.
fn is_parse_list(words: &[u32], n: usize) -> bool
    ensures { result ≡ is_parse_list n words.now }
{
    Parts::of(words).all(|part| is_parse(part, n))
}

// 28, over a parse text.
#[tactic(auto, unfolding(errors::specs::Refusals::first_of))]
pub fn check_parses<'a>(words: &'a [u32], text: &'a [u8]) -> Result<Parses<'a>, Refusal>
    ensures { MatchResult result
        (λ parses. (parses_outcome words.now text.now ≡ ok) × (parses ≡ parses_of words.now text.now))
        (λ refusal. parses_outcome words.now text.now ≡ err refusal) }
{
    if !is_parse_list(words, text.len()) {
        return Err(Refusal::MalformedParses);
    }
    let parses = Parses::new(words, text);

    // Comparing few parses takes less time than counting their marks.
    let is_repeated = if words.len() < 512 {
        repeats::is_repeated(&parses)
    } else {
        repeats::is_repeated_among_many(&parses, words.len())
    };
    if is_repeated {
        return Err(Refusal::MalformedParses);
    }
    Ok(parses)
}
