// What resolving works in.
ghost use Rattle.std.specs.Prelude.{◌≡◌, ◌≤◌, leb};

use paths::Noted;

// Tables for so many elements and facts of rules' trees, and an index for so many facts of a file, are enough where these are few; the
// others are for all that trees may have. Clearing those takes longer than most calls.
pub const FEW: usize = 1024;

pub const FEW_FACTS: usize = 2048;

pub const ALL: usize = 16384;

// Whether the words of the rules' trees are few.
pub fn are_few(words: usize) -> bool
    ensures { result ≡ leb words 3072 }
{
    words <= 3 * FEW
}

// Whether the words of a file's facts are few.
pub fn are_few_facts(words: usize) -> bool
    ensures { result ≡ leb words 8192 }
{
    words <= 4 * FEW_FACTS
}

// The index of a tree's facts, and what is noted of its elements; there is room for N of each. They are of the tree that was resolved last.
#[derive(Drop)]
pub struct Tables<const N: usize> {
    pub(crate) index: [u64; N],
    pub(crate) notes: [Noted; N],
}

impl<const N: usize> Tables<N> {
    // Tables in which nothing is noted.
    pub fn new() -> Self
        requires { N ≤ 16384 }
    {
        Tables {
            index: [0; N],
            notes: [Noted::NOTHING; N],
        }
    }
}
