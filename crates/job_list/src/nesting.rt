// A job's rows: which of its candidates match, and what becomes of each match.
ghost use Rattle.std.specs.Prelude.{◌≡◌, length};
ghost use Rattle.job_checks.specs.Checks.{job_in};
ghost use Rattle.job_list.specs.Rows.{RowsOf};

use crate::gathering;
use job_checks::CheckedJob;
use nester::Row;
use rule_match::preparing::MatchTables;

// Which candidates of a job match, and what becomes of each match: a row for each key.
pub fn nest_candidates<const N: usize>(
    job: &CheckedJob<'_, N>,
    tables: &mut MatchTables<N>,
    rows: &mut [Row],
)
    requires { length rows.old ≡ length job.now.keys.now }
    ensures { RowsOf (job_in job.now.given) rows.new }
{
    gathering::gather_all(job, tables, rows);
    nester::nest_and_remove_collisions(job.file.tree, rows);
    collections::link_rows(rows);
}
