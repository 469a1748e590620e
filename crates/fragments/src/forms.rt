// What a pair has a tree of: each of five forms on each of two sides.

// The side of a rule.
#[derive(Clone, Copy)]
pub enum Side {
    Pattern = 0,
    Template = 1,
}

// The forms that a side is parsed as, in the order of docs/src/src/parsing.rs, `ParsedRule::new`.
#[derive(Clone, Copy, Default)]
pub enum Form {
    #[default]
    Expression = 0,
    Type = 1,
    Item = 2,
    Pattern = 3,
    Statement = 4,
}

impl Form {
    pub const ALL: [Form; 5] = [
        Form::Expression,
        Form::Type,
        Form::Item,
        Form::Pattern,
        Form::Statement,
    ];
}
