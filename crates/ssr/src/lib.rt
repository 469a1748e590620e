// What the C ABI offers, as a library: one function for each operation of document 01, and two that check a tree with its facts by
// itself, all thin. crates/ssr_c exports them.
#![tactic(auto)]

pub mod ranges; // ranges.rt: a range as it is handed over
pub mod list_answers; // list_answers.rt: the answers of the operations on one list, in numbers
pub mod rule_answers; // rule_answers.rt: those of the operations on rules
pub mod match_answers; // match_answers.rt: that of the operation that matches
pub mod rule_exports; // rule_exports.rt: the operations on rules
pub mod match_exports; // match_exports.rt: the operation that matches
pub mod job_exports; // job_exports.rt: the operations that write an edit list

ghost use Rattle.std.specs.Prelude.{◌≡◌, length, option_map};
ghost use Rattle.words.specs.Buffer.{used_of, filled};
ghost use Rattle.parsing.specs.Reading.{reading};
ghost use Rattle.rust_code.specs.RawCode.{code_answer, code_bytes};
ghost use Rattle.tokens.specs.Tokens.{parts_of};
ghost use Rattle.ssr.specs.Lists.{tokens_read, code_written};
ghost use Rattle.ssr.specs.Exports.{list_if, side_of, pair_number, file_number, rule_tree_number};

use crate::list_answers::{RawCode, ReadTokens};
use errors::outcome_number;
use fragments::forms::Side;
use parsing::reading;
use rules::stages;
use tokens::TokenList;
use trees::{GivenFile, GivenTree};

// Reading tokens.
pub fn ssr_read_tokens(words: &[u32], text: &[u8]) -> ReadTokens
    ensures { result ≡ tokens_read (reading words.now text.now) }
{
    reading::parse_pattern(TokenList { words, text }).into()
}

// A list that is given unless the flag is 0.
fn list_if<'a>(given: u32, words: &'a [u32], text: &'a [u8]) -> Option<TokenList<'a>>
    ensures { option_map parts_of result ≡ list_if given words.now text.now }
{
    (given != 0).then_some(TokenList { words, text })
}

// Checking a pair, whose template is given unless the flag is 0: 01's number.
pub fn ssr_check_pair(words: &[u32], text: &[u8], given: u32, others: &[u32], other: &[u8]) -> u32
    ensures { result ≡ pair_number words.now text.now given others.now other.now }
{
    let template = list_if(given, others, other);
    outcome_number(validating::validate_rule(TokenList { words, text }, template))
}

// Writing raw code into a buffer.
pub fn ssr_raw_code(words: &[u32], text: &[u8], out: &mut [u8]) -> RawCode
    ensures value { result ≡ code_written (code_answer (used_of (length out.old)) text.now (reading words.now text.now)) }
    ensures out_after { out.new ≡ filled out.old (code_bytes (used_of (length out.old)) text.now (reading words.now text.now)) }
{
    rust_code::as_rust_code(TokenList { words, text }, out).into()
}

// The file's tree with its facts: 01's number.
pub fn ssr_check_file(words: &[u32], text: &[u8], facts: &[u32]) -> u32
    ensures { result ≡ file_number words.now text.now facts.now }
{
    outcome_number(trees::check_file(GivenFile { words, text, facts }))
}

// The side of a number: the pattern for 0, else the template.
fn side_of(side: u32) -> Side
    ensures { result ≡ side_of side }
{
    match side {
        0 => Side::Pattern,
        _ => Side::Template,
    }
}

// A rule's tree with its facts, and its list, which is given unless the flag is 0: 01's number.
pub fn ssr_check_rule_tree(
    given: u32,
    list: &[u32],
    text: &[u8],
    side: u32,
    words: &[u32],
    code: &[u8],
    facts: &[u32],
    fact_text: &[u8],
) -> u32
    ensures { result ≡ rule_tree_number given list.now text.now side words.now code.now facts.now fact_text.now }
{
    let tree = GivenTree {
        owner: stages::owner_of(side_of(side)),
        words,
        facts,
        fact_bytes: fact_text.len(),
    };
    outcome_number(tree.check_given_tree(list_if(given, list, text), code))
}
