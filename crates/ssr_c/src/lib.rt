// The C ABI: one exported function for each operation of document 01, and two that check a tree with its facts by itself. Each calls the
// function of `ssr` with its name. include/ssr.h declares them.
#![tactic(auto)]

pub mod rule_exports; // rule_exports.rt: the operations on rules
pub mod match_exports; // match_exports.rt: the operation that matches
pub mod job_exports; // job_exports.rt: the operations that write an edit list

ghost use Rattle.std.specs.Prelude.{◌≡◌, length};
ghost use Rattle.words.specs.Buffer.{used_of, filled};
ghost use Rattle.parsing.specs.Reading.{reading};
ghost use Rattle.rust_code.specs.RawCode.{code_answer, code_bytes};
ghost use Rattle.ssr.specs.Lists.{tokens_read, code_written};
ghost use Rattle.ssr.specs.Exports.{pair_number, file_number, rule_tree_number};

use ssr::list_answers::{RawCode, ReadTokens};

// Reading tokens.
#[unsafe(no_mangle)]
pub extern "C" fn ssr_read_tokens(words: &[u32], text: &[u8]) -> ReadTokens
    ensures { result ≡ tokens_read (reading words.now text.now) }
{
    ssr::ssr_read_tokens(words, text)
}

// Checking a pair, whose template is given unless the flag is 0: 01's number.
#[unsafe(no_mangle)]
pub extern "C" fn ssr_check_pair(
    words: &[u32],
    text: &[u8],
    given: u32,
    others: &[u32],
    other: &[u8],
) -> u32
    ensures { result ≡ pair_number words.now text.now given others.now other.now }
{
    ssr::ssr_check_pair(words, text, given, others, other)
}

// Writing raw code into a buffer.
#[unsafe(no_mangle)]
pub extern "C" fn ssr_raw_code(words: &[u32], text: &[u8], out: &mut [u8]) -> RawCode
    ensures value { result ≡ code_written (code_answer (used_of (length out.old)) text.now (reading words.now text.now)) }
    ensures out_after { out.new ≡ filled out.old (code_bytes (used_of (length out.old)) text.now (reading words.now text.now)) }
{
    ssr::ssr_raw_code(words, text, out)
}

// The file's tree with its facts: 01's number.
#[unsafe(no_mangle)]
pub extern "C" fn ssr_check_file(words: &[u32], text: &[u8], facts: &[u32]) -> u32
    ensures { result ≡ file_number words.now text.now facts.now }
{
    ssr::ssr_check_file(words, text, facts)
}

// A rule's tree with its facts, and its list, which is given unless the flag is 0: 01's number.
#[unsafe(no_mangle)]
pub extern "C" fn ssr_check_rule_tree(
    given: u32,
    list: &[u32],
    text: &[u8],
    side: u32,
    words: &[u32],
    code: &[u8],
    facts: &[u32],
    fact_text: &[u8],
) -> u32
    ensures { result ≡ rule_tree_number given list.now text.now side words.now code.now facts.now fact_text.now }
{
    ssr::ssr_check_rule_tree(given, list, text, side, words, code, facts, fact_text)
}
