// What the constraints of a rule's placeholders allow. A constraint holds of a literal where its `not`s are even, and of anything else where
// they are odd; so all of them together want a literal, another thing, both or nothing.
ghost use Rattle.std.specs.Prelude.{◌≡◌};
ghost use Rattle.parsing.specs.Vars.{vars_of};
ghost use Rattle.prepared.specs.Placeholders.{has_remainder};
ghost use Rattle.prepared.specs.Rules.{limit_of, Limited};

use matcher::marks::Limit;
use parsing::patterns::Pattern;

// Whether the `not`s of a constraint leave a remainder when halved.
fn has_remainder(nots: &[u8], remainder: u8) -> bool
    ensures { result ≡ has_remainder remainder nots.now }
{
    nots.iter().any(|nots| *nots % 2 == remainder)
}

// The limit of constraints.
fn limit_of(nots: &[u8]) -> Limit
    ensures { result ≡ limit_of nots.now }
{
    Limit {
        literal: has_remainder(nots, 0),
        other: has_remainder(nots, 1),
    }
}

// Of each placeholder whether a constraint of its own wants a literal and whether one wants another thing.
pub fn limits_of(pattern: &Pattern<'_>) -> [Limit; 8]
    ensures { Limited (vars_of pattern.now) result }
{
    let mut limits = [Limit {
        literal: false,
        other: false,
    }; 8];
    for (slot, placeholder) in pattern.placeholders.as_slice().iter().enumerate() {
        limits[slot] = limit_of(placeholder.nots.as_slice());
    }
    limits
}
