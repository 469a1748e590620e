// The operations that write an edit list.
ghost use Rattle.std.specs.Prelude.{◌≡◌, length};
ghost use Rattle.words.specs.Buffer.{used_of};
ghost use Rattle.fragments.specs.Pairs.{pairs_of};
ghost use Rattle.checks.specs.Given.{file_of};
ghost use Rattle.edits.specs.Answers.{edited_numbers};
ghost use Rattle.job_checks.specs.Checks.{job_of};
ghost use Rattle.job_answers.specs.Answers.{job_answer, buffer_after};
ghost use Rattle.walk_answers.specs.Walk.{walk_of, walk_answer, walk_buffer};
ghost use Rattle.ssr.specs.Matches.{restriction};

use crate::ranges;
use edits::EditedNumbers;
use job_checks::{GivenJob, Inputs};
use trees::GivenFile;

// A job, in a range that is given unless the flag is 0.
pub fn ssr_job(
    directory: &[u32],
    words: &[u32],
    bytes: &[u8],
    fact_text: &[u8],
    tree: &[u32],
    text: &[u8],
    facts: &[u32],
    parses: &[u32],
    parse_text: &[u8],
    candidates: &[u32],
    range_given: u32,
    range_start: usize,
    range_end: usize,
    out: &mut [u8],
) -> EditedNumbers
    ensures value { result ≡ edited_numbers (job_answer (job_of (pairs_of directory.now words.now bytes.now) fact_text.now (file_of tree.now text.now facts.now) parses.now parse_text.now candidates.now (restriction range_given range_start range_end)) (used_of (length out.old))) }
    ensures out_after { out.new ≡ buffer_after (job_of (pairs_of directory.now words.now bytes.now) fact_text.now (file_of tree.now text.now facts.now) parses.now parse_text.now candidates.now (restriction range_given range_start range_end)) out.old }
{
    let inputs = Inputs {
        directory,
        words,
        bytes,
        fact_text,
        file: GivenFile {
            words: tree,
            text,
            facts,
        },
        parses,
        parse_text,
        range: ranges::restriction_of(range_given, range_start, range_end),
    };
    job::job(GivenJob { inputs, candidates }, out).into()
}

// The walk, in a range that is given unless the flag is 0.
pub fn ssr_walk(
    directory: &[u32],
    words: &[u32],
    bytes: &[u8],
    fact_text: &[u8],
    tree: &[u32],
    text: &[u8],
    facts: &[u32],
    parses: &[u32],
    parse_text: &[u8],
    range_given: u32,
    range_start: usize,
    range_end: usize,
    out: &mut [u8],
) -> EditedNumbers
    ensures value { result ≡ edited_numbers (walk_answer (walk_of (pairs_of directory.now words.now bytes.now) fact_text.now (file_of tree.now text.now facts.now) parses.now parse_text.now (restriction range_given range_start range_end)) (used_of (length out.old))) }
    ensures out_after { out.new ≡ walk_buffer (walk_of (pairs_of directory.now words.now bytes.now) fact_text.now (file_of tree.now text.now facts.now) parses.now parse_text.now (restriction range_given range_start range_end)) out.old }
{
    let inputs = Inputs {
        directory,
        words,
        bytes,
        fact_text,
        file: GivenFile {
            words: tree,
            text,
            facts,
        },
        parses,
        parse_text,
        range: ranges::restriction_of(range_given, range_start, range_end),
    };
    walk::walk(inputs, out).into()
}
