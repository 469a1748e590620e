// What a rule says of its pattern's elements and of its placeholders.
ghost use Rattle.std.specs.Prelude.{◌≡◌, ◌<◌, ◌≤◌, IfSome};
ghost use Rattle.matcher.specs.Numbers.{word_of};

use facts::Call;

// What a rule says of an element of its pattern: which placeholder it is, what it resolves to as a path, and its function and qualifier type
// as a call. Each is a word: 0 where there is nothing, else one more than the number.
#[derive(Clone, Copy)]
pub struct Mark {
    placeholder: u32,
    path: u32,
    function: u32,
    qualifier: u32,
    pub ghost slot_bound: { placeholder ≤ 8 },
}

// The word of a number.
fn word_of(number: Option<u32>) -> u32
    requires { IfSome number (λ n. n < u32.MAX) }
    ensures { result ≡ word_of number }
{
    number.map_or(0, |n| n + 1)
}

impl Mark {
    ghost use Rattle.matcher.specs.Marks.{slot_in, path_in, call_in};

    // An element of which a rule says nothing.
    pub const NONE: Mark = Mark {
        placeholder: 0,
        path: 0,
        function: 0,
        qualifier: 0,
    };

    // The mark of what a rule says of an element.
    pub fn new(placeholder: Option<usize>, path: Option<u32>, call: Option<Call>) -> Mark
        requires slot_bound { IfSome placeholder (λ slot. slot < 8) }
        requires path_bound { IfSome path (λ resolution. resolution < u32.MAX) }
        requires call_bound { IfSome call (λ c. (c.function < u32.MAX) × IfSome c.qualifier (λ q. q < u32.MAX)) }
        ensures placeholder { slot_in result ≡ placeholder }
        ensures path { path_in result ≡ path }
        ensures call { call_in result ≡ call }
    {
        let (function, qualifier) = call.map_or(
            (0, 0),
            |call| (call.function + 1, word_of(call.qualifier)),
        );
        Mark {
            placeholder: placeholder.map_or(0, |slot| slot as u32 + 1),
            path: word_of(path),
            function,
            qualifier,
        }
    }

    // Which placeholder the element is.
    pub fn placeholder(self) -> Option<usize>
        ensures value { result ≡ slot_in self }
        ensures in_bounds { IfSome result (λ slot. slot < 8) }
    {
        let slot = self.placeholder.checked_sub(1)?;
        Some(slot as usize)
    }

    // What it resolves to as a path.
    pub fn path(self) -> Option<u32>
        ensures { result ≡ path_in self }
    {
        self.path.checked_sub(1)
    }

    // What it is as a call that UFCS may match.
    pub fn call(self) -> Option<Call>
        ensures { result ≡ call_in self }
    {
        let function = self.function.checked_sub(1)?;
        Some(Call {
            function,
            qualifier: self.qualifier.checked_sub(1),
        })
    }
}

// Whether a placeholder's constraints want a literal, and whether they want another thing.
#[derive(Clone, Copy)]
pub struct Limit {
    pub literal: bool,
    pub other: bool,
}

impl Limit {
    ghost use Rattle.matcher.specs.Marks.{allows};

    // Whether they allow code that is, or is not, a literal.
    pub fn allows(self, is_literal: bool) -> bool
        ensures { result ≡ allows self is_literal }
    {
        (!self.literal | is_literal) & (!self.other | !is_literal)
    }
}
