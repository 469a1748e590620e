// Record lists that start over: where the siblings of pattern and code stand beside each other by order, and which of them are matched by name too.
ghost use Rattle.std.specs.Prelude.{◌≡◌, not, ◌&&◌};
ghost use Rattle.syntax.specs.Views.{elems_of, IsWithin};
ghost use Rattle.matcher.specs.Matcher.{matcher_of, has_placeholder_name};
ghost use Rattle.record_fields.specs.Order.{starts_over, next, past, is_same, AsksFor};

use matcher::{Matcher, Siblings};
use syntax::kinds::TOKENS;
use syntax::parts::Part;

// Whether one of the pattern's siblings has a placeholder as its name.
#[tactic(auto, using(crate::proofs::OrderLaws::over_here, crate::proofs::OrderLaws::over_rest, crate::proofs::OrderLaws::over_gone))]
pub fn starts_over(x: &Matcher, part: Part) -> bool
    ensures { result ≡ starts_over (matcher_of x.now) (elems_of part.entry) }
{
    for q in part {
        if x.has_placeholder_name(q) {
            return true;
        }
    }
    false
}

// Whether no name was a placeholder before, and that of what is left of the pattern's siblings is none.
pub fn goes_on(x: &Matcher, before: bool, q: Part) -> bool
    ensures { result ≡ (before && not (has_placeholder_name (matcher_of x.now) (elems_of q.entry))) }
{
    before && !x.has_placeholder_name(q)
}

// The next of the code's siblings by order.
pub fn next(c: Part) -> Part
    ensures value { elems_of result ≡ next (elems_of c.entry) }
    ensures result_in_bounds { IsWithin result c.entry }
{
    c.skip_tokens(TOKENS)
}

// What is left of the code's siblings behind one of the pattern's by order.
pub fn past<'c>(q: Part, c: Part<'c>) -> Part<'c>
    ensures value { elems_of result ≡ past (elems_of q.entry) (elems_of c.entry) }
    ensures result_in_bounds { IsWithin result c.entry }
{
    if q.is_token() {
        return c;
    }
    next(c).rest()
}

// Whether two parts of the code's siblings begin with the same one.
#[tactic(auto, using(crate::proofs::OrderLaws::same_is))]
pub fn is_same(a: Part, b: Part) -> bool
    ensures { result ≡ is_same (elems_of a.entry) (elems_of b.entry) }
{
    !a.is_empty() & !b.is_empty() & (a.number == b.number)
}

// The code's field that one of the pattern's siblings asks for by its name, where both it and the code's, c, are matched by order and no name
// was a placeholder.
pub fn asked<'a>(x: &Matcher, on: bool, lists: Siblings<'a>, q: Part, c: Part) -> Option<Part<'a>>
    ensures { AsksFor on (matcher_of x.now) lists.entry (elems_of q.entry) (elems_of c.entry) result }
{
    if on && q.is_node() && !c.is_token() {
        let name = crate::name_of(x, q)?;
        return Some(crate::find_field(x, lists.c, name));
    }
    None
}
