// The syntax kinds of document 01, "Words", under rust-analyzer's names. Tokens and nodes are numbered apart.
ghost use Rattle.std.specs.Prelude.{◌≡◌};
ghost use Rattle.syntax.specs.Accessors.{between};

// Which of the two an element is.
#[derive(Clone, Copy)]
pub enum ElementKind {
    Node,
    Token,
}

// The syntax kinds from one to another.
#[derive(Clone, Copy)]
pub struct Kinds {
    pub low: u32,
    pub high: u32,
}

impl Kinds {
    // One kind alone.
    pub const fn one(kind: u32) -> Kinds
        ensures low { result.low ≡ kind }
        ensures high { result.high ≡ kind }
    {
        Kinds {
            low: kind,
            high: kind,
        }
    }

    // Whether a kind is one of them.
    pub fn contains(self, kind: u32) -> bool
        ensures { result ≡ between self.low self.high kind }
    {
        (self.low <= kind) & (kind <= self.high)
    }
}

// Tokens.
pub const IDENT: u32 = 1;

pub const WHITESPACE: u32 = 2;

pub const COMMENT: u32 = 3;

pub const COMMA: u32 = 4;

pub const R_PAREN: u32 = 5;

pub const R_CURLY: u32 = 6;

pub const R_BRACK: u32 = 7;

pub const DOLLAR: u32 = 8;

pub const L_CURLY: u32 = 9;

pub const COLON: u32 = 10;

pub const SELF_KW: u32 = 11;

// Every token kind, and those that matching passes over.
pub const TOKENS: Kinds = Kinds { low: 1, high: 1023 };

pub const TRIVIA: Kinds = Kinds { low: 2, high: 3 };

// Nodes.
pub const TOKEN_TREE: u32 = 1;

pub const PATH: u32 = 2;

pub const PATH_SEGMENT: u32 = 3;

pub const NAME_REF: u32 = 4;

pub const GENERIC_ARG_LIST: u32 = 5;

pub const PARENTHESIZED_ARG_LIST: u32 = 6;

pub const ARG_LIST: u32 = 7;

pub const RECORD_EXPR_FIELD_LIST: u32 = 8;

pub const RECORD_EXPR_FIELD: u32 = 9;

pub const CALL_EXPR: u32 = 64;

pub const METHOD_CALL_EXPR: u32 = 65;

pub const LITERAL: u32 = 66;

// Every node kind, expressions and items.
pub const NODES: Kinds = Kinds { low: 1, high: 4095 };

pub const EXPRESSIONS: Kinds = Kinds {
    low: 64,
    high: 1023,
};

pub const ITEMS: Kinds = Kinds {
    low: 1024,
    high: 2047,
};
