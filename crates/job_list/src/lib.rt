// The edit list of a job that passed its checks: its candidates are nested, and what they match is written.
#![tactic(auto)]

ghost use Rattle.std.specs.Prelude.{◌≡◌, ◌≤◌, length};
ghost use Rattle.words.specs.Buffer.{filled};
ghost use Rattle.edits.specs.Answers.{answer_of, bytes_of};
ghost use Rattle.job_checks.specs.Checks.{job_in};
ghost use Rattle.job_answers.specs.Answers.{list_in};

mod gathering; // gathering.rt: which candidates match
mod match_rows; // match_rows.rt: the row of one candidate
mod nesting; // nesting.rt: what becomes of each match
mod write_edits; // write_edits.rt: the edits of outer matches

use edits::Edited;
use errors::Refusal;
use job_checks::CheckedJob;
use render_replace::{Handed, RenderTables};
use rows::frames::Frame;

// The edit list of a job that passed its checks and has at most R candidates.
fn write_in<const N: usize, const R: usize>(
    job: &CheckedJob<'_, N>,
    tables: &mut RenderTables<N>,
    out: &mut [u8],
) -> Result<Edited, Refusal>
    requires few { (length job.now.keys.now ≤ R) × (R ≤ 1024) }
    requires fits { length out.old ≤ 1048576 }
    ensures value { result ≡ answer_of (list_in (job_in job.now.given) (length out.old)) }
    ensures out_after { out.new ≡ filled out.old (bytes_of (list_in (job_in job.now.given) (length out.old))) }
{
    let mut table = [match_rows::row_of(0, 0, None, 0); R];
    let mut frames = [Frame::at(0); R];
    let rows = &mut table[..job.keys.len()];
    nesting::nest_candidates(job, &mut tables.matching, rows);
    let handed = Handed {
        rules: &job.rules,
        fact_text: job.given.inputs.fact_text,
        file: &job.file,
        range: job.given.inputs.range,
        parses: &job.parses,
        rows,
    };
    write_edits::write_edits(&handed, &mut frames, tables, out)
}

// The edit list of a job that passed its checks. The rows are made here, so that no caller has to know how many they are; clearing those for
// all candidates that a job may have takes longer than most jobs.
pub fn write_checked<const N: usize>(
    job: &CheckedJob<'_, N>,
    tables: &mut RenderTables<N>,
    out: &mut [u8],
) -> Result<Edited, Refusal>
    requires { length out.old ≤ 1048576 }
    ensures value { result ≡ answer_of (list_in (job_in job.now.given) (length out.old)) }
    ensures out_after { out.new ≡ filled out.old (bytes_of (list_in (job_in job.now.given) (length out.old))) }
{
    if job.keys.len() <= 32 {
        return write_in::<N, 32>(job, tables, out);
    }
    write_in::<N, 1024>(job, tables, out)
}
