// Comments that matching passes over.
ghost use Rattle.std.specs.Prelude.{◌≡◌, length};
ghost use Rattle.syntax.specs.Views.{elems_of};
ghost use Rattle.captures.specs.Attempts.{Attempt, and_then};
ghost use Rattle.captures.specs.Effects.{Leads};
ghost use Rattle.matcher.specs.Tokens.{note};

use captures::State;
use matcher::Matcher;
use syntax::kinds::{COMMENT, Kinds};
use syntax::parts::Part;

// Notes the token that a part begins with where it is a comment.
#[tactic(auto, using(crate::proofs::TokenTreeLaws::comment_noted, crate::proofs::TokenTreeLaws::comment_none))]
pub fn record_ignored_comments(x: &Matcher, c: Part, s: State, out: &mut [u8]) -> State
    ensures out_len_unchanged { length out.new ≡ length out.old }
    ensures leads { (left : Attempt) → Leads left (and_then (note x.now.file.now (elems_of c.entry)) left) s out.old result out.new }
{
    if c.is_token_in(Kinds::one(COMMENT)) {
        return s.note(c, x.file, out);
    }
    s
}
