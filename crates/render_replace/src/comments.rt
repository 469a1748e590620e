// The comments of a match, found by matching once more: they are not kept.
ghost use Rattle.std.specs.Prelude.{◌≡◌, true, ◌≤◌, length};
ghost use Rattle.checks.specs.Given.{is_node_of};
ghost use Rattle.replacing.specs.Laying.{Lays};
ghost use Rattle.render_replace.specs.Worlds.{noted_in, noted_comments};

use crate::Handed;
use captures::State;
use nester::Row;
use rule_match::Question;
use rule_match::preparing::MatchTables;

// How many bytes of comments a match noted.
fn noted_in(state: Option<State>) -> usize
    ensures { result ≡ noted_in state }
{
    state.map_or(0, |s| s.noted)
}

// Lays the comments of a row's match.
#[tactic(auto, using(crate::proofs::CommentLaws::comments_fit, crate::proofs::CommentLaws::comments_pass, crate::proofs::CommentLaws::size_with))]
pub fn put_comments<const N: usize>(
    handed: &Handed<'_, '_, N>,
    row: &Row,
    tables: &mut MatchTables<N>,
    out: &mut [u8],
    at: usize,
) -> Option<usize>
    requires { (is_node_of handed.now.file row.now.node ≡ true) × (at ≤ length out.old) }
    ensures { Lays out.old at (noted_comments handed.now.rules handed.now.file handed.now.range row.now.rule row.now.node) out.new result }
{
    let question = Question {
        rule: row.rule as usize,
        node: row.node as usize,
        range: handed.range,
    };
    let state = rule_match::match_number(
        handed.rules,
        handed.file,
        question,
        tables,
        &mut out[at..],
    );
    let noted = noted_in(state);
    if noted <= out.len() - at {
        return Some(at + noted);
    }
    None
}
