// The whole-file walk: a candidate of every node with every rule. Those that match are found, and the edit list of the job on these is
// written.
#![tactic(auto)]

ghost use Rattle.std.specs.Prelude.{◌≡◌, ◌/◌, ◌≤◌, length, IfOk, []};
ghost use Rattle.trees.specs.Given.{outcome_of};
ghost use Rattle.words.specs.Buffer.{used_of};
ghost use Rattle.rule_paths.specs.Needs.{Roomy};
ghost use Rattle.job_checks.specs.Checks.{job_in};
ghost use Rattle.walk_answers.specs.Walk.{walk_in as the_walk, walk_outcome, walk_answer, walk_buffer};
ghost use Rattle.walk_answers.specs.Walkable.{FoundJob};

mod finding; // finding.rt: the candidates that match

use edits::Edited;
use errors::Refusal;
use facts::IndexTables;
use job_checks::{CheckedJob, Inputs};
use render_replace::RenderTables;
use rule_match::preparing::MatchTables;
use rule_paths::tables;
use rule_paths::tables::{ALL, FEW, FEW_FACTS};
use walk_nodes::found::Found;
use words::buffer;

// All checks in turn, in document 01's order: 1 to 22; 24 over 16 rules, 25, 27; 24 over 1,024 matches; 28. And the job on the candidates
// that match.
#[tactic(auto, using(walk_answers::proofs::CheckLaws::walk_refused, walk_answers::proofs::CheckLaws::too_many_matches, walk_answers::proofs::FoundLaws::finds_matches))]
fn find_job<'a, const N: usize>(
    given: Inputs<'a>,
    tables: &mut MatchTables<N>,
    index: IndexTables<'a>,
    found: &'a mut Found,
    keys: &'a mut [u64; 1024],
) -> Result<CheckedJob<'a, N>, Refusal>
    requires room { Roomy N given.words.now }
    requires index_len { length given.file.facts.now / 4 ≤ 16383 → length given.file.facts.now / 4 ≤ length index.entries.now }
    requires none_found { found.old ≡ [] }
    ensures value { outcome_of result ≡ walk_outcome (the_walk given.entry) }
    ensures found_job { IfOk result (λ job. FoundJob given.entry (job_in job.given)) }
{
    let accepted = walk_answers::check_walk(&given, &mut tables.resolving, index)?;
    finding::find_all(
        &accepted.rules,
        &accepted.file,
        accepted.rules.count(),
        given.range,
        tables,
        found,
    )
    .ok_or(Refusal::TooManyRulesOrCandidates)?;
    walk_answers::check_found(given, accepted, found, keys)
}

// The walk in a buffer that is used whole: in tables for trees of up to N elements or facts, and an index of up to F facts of the file.
#[tactic(auto, using(job_answers::proofs::AnswerLaws::refused, job_answers::proofs::AnswerLaws::written))]
#[inline(never)]
fn walk_in<const N: usize, const F: usize>(
    given: Inputs<'_>,
    out: &mut [u8],
) -> Result<Edited, Refusal>
    requires room { Roomy N given.words.now }
    requires index_len { length given.file.facts.now / 4 ≤ 16383 → length given.file.facts.now / 4 ≤ F }
    requires in_bounds { (N ≤ 16384) × (F ≤ 16384) × (length out.old ≤ 1048576) }
    ensures value { result ≡ walk_answer (the_walk given.entry) (length out.old) }
    ensures out_after { out.new ≡ walk_buffer (the_walk given.entry) out.old }
{
    let mut tables = RenderTables::<N>::new();
    let mut entries = [0; F];
    let mut starts = [0; ALL];
    let index = IndexTables {
        entries: &mut entries,
        starts: &mut starts,
    };
    let mut found = Found::new();
    let mut keys = [0; 1024];
    match find_job(given, &mut tables.matching, index, &mut found, &mut keys) {
        Ok(job) => job_list::write_checked(&job, &mut tables, out),
        Err(refusal) => errors::refuse(refusal, out),
    }
}

// In the used part of a buffer.
fn walk_used(given: Inputs<'_>, out: &mut [u8]) -> Result<Edited, Refusal>
    requires { length out.old ≤ 1048576 }
    ensures value { result ≡ walk_answer (the_walk given.entry) (length out.old) }
    ensures out_after { out.new ≡ walk_buffer (the_walk given.entry) out.old }
{
    if !tables::are_few(given.words.len()) {
        return walk_in::<ALL, ALL>(given, out);
    }
    if tables::are_few_facts(given.file.facts.len()) {
        return walk_in::<FEW, FEW_FACTS>(given, out);
    }
    walk_in::<FEW, ALL>(given, out)
}

// The walk: the rules, the fact text that their facts point into, the file, the parses, and a range that matches have to be in.
#[tactic(auto, using(words::proofs::BufferLaws::used_within, words::proofs::BufferLaws::used_small, job_answers::proofs::AnswerLaws::used_part))]
pub fn walk(given: Inputs<'_>, out: &mut [u8]) -> Result<Edited, Refusal>
    ensures value { result ≡ walk_answer (the_walk given.entry) (used_of (length out.old)) }
    ensures out_after { out.new ≡ walk_buffer (the_walk given.entry) out.old }
{
    let end = buffer::used(out.len());
    walk_used(given, &mut out[..end])
}
