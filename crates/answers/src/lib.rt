// The answer of matching one node, and the buffer then.
#![tactic(auto)]

ghost use Rattle.std.specs.Prelude.{◌≡◌, List, ℕ, ◌≤◌, length};
ghost use Rattle.words.specs.Buffer.{filled};
ghost use Rattle.captures.specs.Attempts.{Attempt};
ghost use Rattle.captures.specs.Effects.{nothing, Gives};
ghost use Rattle.answers.specs.Answers.{answer_of, bytes_of};

use captures::{Binding, State};
use errors::Refusal;
use words::buffer;

// A match: the length of its comments, and the bindings in pattern order.
#[derive(Clone, Copy)]
pub struct NodeMatch {
    pub comments_length: usize,
    pub bindings: [Option<Binding>; 8],
}

// The answer of an attempt that was made with this buffer.
pub fn answer(state: Option<State>, out: &mut [u8]) -> Result<Option<NodeMatch>, Refusal>
    requires { length out.old ≤ 1048576 }
    ensures value { (a : Attempt) (before : List ℕ) → Gives a nothing before state out.old → result ≡ answer_of (length before) a }
    ensures out_after { (a : Attempt) (before : List ℕ) → Gives a nothing before state out.old → out.new ≡ filled before (bytes_of (length before) a) }
{
    let Some(state) = state else {
        buffer::finish(out, 0);
        return Ok(None);
    };
    if out.len() < state.noted {
        return errors::refuse(Refusal::DoesNotFit, out);
    }
    buffer::finish(out, state.noted);
    let bindings = state.bindings;
    Ok(Some(NodeMatch {
        comments_length: state.noted,
        bindings,
    }))
}
