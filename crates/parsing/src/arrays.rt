// The constraints of a placeholder, and the placeholders of a list, in arrays that are copied.
ghost use Rattle.std.specs.Prelude.{◌≡◌, ◌<◌, ◌≤◌, ◌==◌, [], ◌∷◌, ◌++◌, length};

use crate::patterns::Placeholder;

// Of each constraint how many `not`s stand around `kind(literal)`.
#[derive(Clone, Copy)]
pub struct Nots {
    bytes: [u8; 50],
    count: usize,
    ghost fits: { count ≤ 50 },
}

impl Nots {
    ghost use Rattle.parsing.specs.Patterns.{nots_of};

    // No constraints.
    pub fn new() -> Self
        ensures { nots_of result ≡ [] }
    {
        Nots {
            bytes: [0; 50],
            count: 0,
        }
    }

    // How many.
    pub fn len(&self) -> usize
        ensures value { result ≡ length (nots_of self.now) }
        ensures fits { result ≤ 50 }
    {
        self.count
    }

    // Whether there are none.
    pub fn is_empty(&self) -> bool
        ensures { result ≡ (length (nots_of self.now) == 0) }
    {
        self.count == 0
    }

    // The `not`s of each.
    pub fn as_slice(&self) -> &[u8]
        ensures value { result.now ≡ nots_of self.now }
        ensures fits { length result.now ≤ 50 }
    {
        &self.bytes[..self.count]
    }

    // One more, behind them.
    pub fn push(&mut self, nots: u8)
        requires { length (nots_of self.old) < 50 }
        ensures { nots_of self.new ≡ nots_of self.old ++ nots ∷ [] }
    {
        let count = self.count;
        self.bytes[count] = nots;
        self.count = count + 1;
    }
}

impl Default for Nots {
    ghost use Rattle.parsing.specs.Patterns.{nots_of};

    ghost is_default = { λ nots. nots_of nots ≡ [] };

    fn default() -> Self {
        Nots::new()
    }
}

// At most eight placeholders, in list order.
#[derive(Clone, Copy)]
pub struct Placeholders {
    items: [Placeholder; 8],
    count: usize,
    ghost fits: { count ≤ 8 },
}

impl Placeholders {
    ghost use Rattle.parsing.specs.Patterns.{placeholders_of};

    // No placeholders.
    pub fn new() -> Self
        ensures { placeholders_of result ≡ [] }
    {
        Placeholders {
            items: [Placeholder::default(); 8],
            count: 0,
        }
    }

    // How many.
    pub fn len(&self) -> usize
        ensures value { result ≡ length (placeholders_of self.now) }
        ensures fits { result ≤ 8 }
    {
        self.count
    }

    // They in order.
    pub fn as_slice(&self) -> &[Placeholder]
        ensures value { result.now ≡ placeholders_of self.now }
        ensures fits { length result.now ≤ 8 }
    {
        &self.items[..self.count]
    }

    // One more, behind them.
    pub fn push(&mut self, placeholder: Placeholder)
        requires { length (placeholders_of self.old) < 8 }
        ensures { placeholders_of self.new ≡ placeholders_of self.old ++ placeholder ∷ [] }
    {
        let count = self.count;
        self.items[count] = placeholder;
        self.count = count + 1;
    }
}
