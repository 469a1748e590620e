// What making a rule ready works in.
ghost use Rattle.std.specs.Prelude.{◌≤◌};

use matcher::marks::Mark;
use rule_paths::Tables;

// What resolving works in, and the marks of a pattern's elements; there is room for N of each.
#[derive(Drop)]
pub struct MatchTables<const N: usize> {
    pub resolving: Tables<N>,
    pub(crate) marks: [Mark; N],
}

impl<const N: usize> MatchTables<N> {
    // Tables in which nothing is marked.
    pub fn new() -> Self
        requires { N ≤ 16384 }
    {
        MatchTables {
            resolving: Tables::new(),
            marks: [Mark::NONE; N],
        }
    }
}
