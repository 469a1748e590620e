// Facts: what a front end says of a tree's elements, and the look-up by sort, element and step or module.
#![tactic(auto)]

ghost use Rattle.std.specs.Prelude.{◌≡◌};
ghost use Rattle.facts.specs.Facts.{fact_at, sort_number, NumbersSort};

use words::fields;

mod index; // index.rt: a list of facts with its index

pub use index::{Facts, IndexTables};

// The tree that facts stand on.
#[derive(Clone, Copy)]
pub enum Owner {
    File,
    Pattern,
    Template,
}

// What a fact tells of its element: the table "Facts" of docs/FORMAT.md, by its numbers.
#[derive(Clone, Copy)]
pub enum Sort {
    // A path of the file: its resolution.
    CodePath = 0,
    // A path of a pattern or a template: its resolution and flags.
    RulePath = 1,
    // A method call of the file: its function, and whether and how that takes self.
    MethodCall = 2,
    // An expression of the file: its type after a number of dereferences.
    Expression = 3,
    // A path of a pattern: its qualifier type.
    PatternPath = 4,
    // A record field of the file: its name token.
    RecordField = 5,
    // A node of the file: its module.
    Node = 6,
    // A path of a template: its text in a module.
    TemplatePath = 7,
}

impl From<Sort> for u32 {
    ghost from_gives = { λ sort number. number ≡ sort_number sort };

    fn from(sort: Sort) -> u32 {
        sort as u32
    }
}

// A number that no sort has.
#[derive(Clone, Copy)]
pub struct UnknownSort(pub u32);

impl TryFrom<u32> for Sort {
    type Error = UnknownSort;

    ghost try_from_gives = { NumbersSort };

    fn try_from(number: u32) -> Result<Sort, UnknownSort> {
        match number {
            0 => Ok(Sort::CodePath),
            1 => Ok(Sort::RulePath),
            2 => Ok(Sort::MethodCall),
            3 => Ok(Sort::Expression),
            4 => Ok(Sort::PatternPath),
            5 => Ok(Sort::RecordField),
            6 => Ok(Sort::Node),
            7 => Ok(Sort::TemplatePath),
            _ => Err(UnknownSort(number)),
        }
    }
}

// A fact. Its sort is the number in its word, which in a list that is not checked may be none of `Sort`.
#[derive(Clone, Copy)]
pub struct Fact {
    pub sort: u32,
    pub element: usize,
    pub first: u32,
    pub second: u32,
    pub third: u32,
}

impl Fact {
    // The fact that a part of a list begins with; a word that is not there counts as 0.
    #[inline(always)]
    pub fn read(part: &[u32]) -> Fact
        ensures { result ≡ fact_at part.now }
    {
        Fact {
            sort: fields::fact_sort(part),
            element: fields::fact_element(part),
            first: fields::value(part, 1),
            second: fields::value(part, 2),
            third: fields::value(part, 3),
        }
    }
}

// A call that UFCS may match: its function, and its qualifier type where it has one.
#[derive(Clone, Copy)]
pub struct Call {
    pub function: u32,
    pub qualifier: Option<u32>,
}
