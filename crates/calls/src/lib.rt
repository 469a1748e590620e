// Calls and paths: what matching asks of the pattern's element and the code's at once.
#![tactic(auto)]

ghost use Rattle.std.specs.Prelude.{◌≡◌, List, ℕ, Some, is_some, ◌-◌, ◌≤◌, length};
ghost use Rattle.syntax.specs.Accessors.{number_of};
ghost use Rattle.syntax.specs.Views.{elems_of, IsWithin};
ghost use Rattle.captures.specs.Effects.{Gives};
ghost use Rattle.matcher.specs.Matcher.{matcher_of, qualifier_of};
ghost use Rattle.calls.specs.Calls.{call_of, arguments_of, argument_of, receiver_of, receiver_derefs, first_fits, same_resolution, same_function, takes_receiver, prefix};

use captures::State;
use matcher::Matcher;
use syntax::kinds::ARG_LIST;
use syntax::parts::Part;

// The number of the first element; 0 where there is none.
#[tactic(auto, using(crate::proofs::CallLaws::number_there, crate::proofs::CallLaws::number_none))]
fn number_of(c: Part) -> usize
    ensures { result ≡ number_of (elems_of c.entry) }
{
    if c.is_empty() {
        return 0;
    }
    c.number
}

// The qualifier type of the pattern's call.
fn qualifier_of(x: &Matcher, p: Part) -> Option<u32>
    ensures { result ≡ qualifier_of (call_of (matcher_of x.now) (elems_of p.entry)) }
{
    x.call_at(number_of(p))?.qualifier
}

// Whether the code's path refers to what the pattern's resolves to.
pub fn same_resolution(x: &Matcher, p: Part, c: Part) -> bool
    ensures { result ≡ same_resolution (matcher_of x.now) (elems_of p.entry) (elems_of c.entry) }
{
    let resolution = x.path_at(number_of(p)).unwrap_or(0);
    x.resolves_to(number_of(c), resolution)
}

// Whether the code's method call calls the function of the pattern's call.
pub fn same_function(x: &Matcher, p: Part, c: Part) -> bool
    ensures { result ≡ same_function (matcher_of x.now) (elems_of p.entry) (elems_of c.entry) }
{
    let function = x.call_at(number_of(p)).map_or(0, |call| call.function);
    x.calls_function(number_of(c), function)
}

// The children of a call's argument list.
pub fn arguments_of(c: Part) -> Part
    ensures value { elems_of result ≡ arguments_of (elems_of c.entry) }
    ensures result_in_bounds { IsWithin result c.entry }
    ensures shorter { length result.words.now ≤ length c.entry.words.now - 3 }
{
    c.first_child(ARG_LIST).children()
}

// A call's first argument.
pub fn argument_of(c: Part) -> Part
    ensures value { elems_of result ≡ argument_of (elems_of c.entry) }
    ensures result_in_bounds { IsWithin result c.entry }
{
    arguments_of(c).find_expression()
}

// The receiver of a method call.
pub fn receiver_of(c: Part) -> Part
    ensures value { elems_of result ≡ receiver_of (elems_of c.entry) }
    ensures result_in_bounds { IsWithin result c.entry }
{
    c.children().find_expression()
}

// Whether the first argument of the code's call, where it has one, has the qualifier type of the pattern's call, where that has one.
#[tactic(auto, using(crate::proofs::CallLaws::number_there))]
pub fn first_fits(x: &Matcher, p: Part, c: Part) -> bool
    ensures { result ≡ first_fits (matcher_of x.now) (elems_of p.entry) (elems_of c.entry) }
{
    let Some(wanted) = qualifier_of(x, p) else {
        return true;
    };
    let argument = argument_of(c);
    argument.is_empty() || x.check_expr_type(argument.number, wanted).is_some()
}

// Whether the receiver of the code's method call is matched with the first argument of the pattern's call.
pub fn takes_receiver(x: &Matcher, p: Part, c: Part) -> bool
    ensures { result ≡ takes_receiver (matcher_of x.now) (elems_of p.entry) (elems_of c.entry) }
{
    if x.takes_self(number_of(c)) {
        return qualifier_of(x, p).is_some() && !receiver_of(c).is_empty();
    }
    true
}

// How often the receiver is dereferenced until it has the qualifier type, where the function takes self; any receiver fits another function.
pub fn receiver_derefs(x: &Matcher, p: Part, c: Part) -> Option<u32>
    ensures { result ≡ receiver_derefs (matcher_of x.now) (elems_of p.entry) (elems_of c.entry) }
{
    if x.takes_self(number_of(c)) {
        let wanted = qualifier_of(x, p).unwrap_or(0);
        return x.check_expr_type(number_of(receiver_of(c)), wanted);
    }
    Some(0)
}

// Gives the placeholder that was bound to the receiver of the code's method call its stars and self kind, where the function takes self.
pub fn prefix(x: &Matcher, stars: u32, q: Part, receiver: Part, c: Part, s: State) -> State
    ensures { (out : List ℕ) → Gives (prefix (matcher_of x.now) stars (elems_of q.entry) (elems_of receiver.entry) (number_of (elems_of c.entry))) s out (Some result) out }
{
    let call = number_of(c);
    if x.takes_self(call) {
        if let Some(slot) = x.placeholder(q) {
            return s.bind(slot, receiver, receiver, stars, x.self_kind(call));
        }
    }
    s
}
