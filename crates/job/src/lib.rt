// The operation "A job": candidates are matched, nested and rendered, and the edit list is written.
#![tactic(auto)]

mod checking; // checking.rt: the checks of a job in turn

ghost use Rattle.std.specs.Prelude.{◌≡◌, ◌/◌, ◌≤◌, length};
ghost use Rattle.words.specs.Buffer.{used_of};
ghost use Rattle.rule_paths.specs.Needs.{Roomy};
ghost use Rattle.job_checks.specs.Checks.{job_in as the_job};
ghost use Rattle.job_answers.specs.Answers.{job_answer, buffer_after};

use edits::Edited;
use errors::Refusal;
use facts::IndexTables;
use job_checks::GivenJob;
use render_replace::RenderTables;
use rule_paths::tables;
use rule_paths::tables::{ALL, FEW, FEW_FACTS};
use words::buffer;

// All checks in turn, and then the edit list, in a buffer that is used whole: with tables for trees of up to N elements or facts, and an index
// of up to F facts of the file.
#[tactic(auto, using(job_answers::proofs::AnswerLaws::refused, job_answers::proofs::AnswerLaws::written, crate::proofs::CheckingLaws::same_list))]
#[inline(never)]
fn job_in<const N: usize, const F: usize>(
    given: GivenJob<'_>,
    out: &mut [u8],
) -> Result<Edited, Refusal>
    requires room { Roomy N given.inputs.words.now }
    requires index_len { length given.inputs.file.facts.now / 4 ≤ 16383 → length given.inputs.file.facts.now / 4 ≤ F }
    requires in_bounds { (N ≤ 16384) × (F ≤ 16384) × (length out.old ≤ 1048576) }
    ensures value { result ≡ job_answer (the_job given.entry) (length out.old) }
    ensures out_after { out.new ≡ buffer_after (the_job given.entry) out.old }
{
    let mut tables = RenderTables::<N>::new();
    let mut entries = [0; F];
    let mut starts = [0; ALL];
    let index = IndexTables {
        entries: &mut entries,
        starts: &mut starts,
    };
    let mut keys = [0; 1024];
    match checking::check_job(given, &mut tables.matching.resolving, index, &mut keys) {
        Ok(job) => job_list::write_checked(&job, &mut tables, out),
        Err(refusal) => errors::refuse(refusal, out),
    }
}

// In the used part of a buffer.
fn job_used(given: GivenJob<'_>, out: &mut [u8]) -> Result<Edited, Refusal>
    requires { length out.old ≤ 1048576 }
    ensures value { result ≡ job_answer (the_job given.entry) (length out.old) }
    ensures out_after { out.new ≡ buffer_after (the_job given.entry) out.old }
{
    if !tables::are_few(given.inputs.words.len()) {
        return job_in::<ALL, ALL>(given, out);
    }
    if tables::are_few_facts(given.inputs.file.facts.len()) {
        return job_in::<FEW, FEW_FACTS>(given, out);
    }
    job_in::<FEW, ALL>(given, out)
}

// A job: the rules, the fact text that their facts point into, the file, the parses, the candidates, and a range that matches have to be in.
#[tactic(auto, using(words::proofs::BufferLaws::used_within, words::proofs::BufferLaws::used_small, job_answers::proofs::AnswerLaws::used_part))]
pub fn job(given: GivenJob<'_>, out: &mut [u8]) -> Result<Edited, Refusal>
    ensures value { result ≡ job_answer (the_job given.entry) (used_of (length out.old)) }
    ensures out_after { out.new ≡ buffer_after (the_job given.entry) out.old }
{
    let end = buffer::used(out.len());
    job_used(given, &mut out[..end])
}
