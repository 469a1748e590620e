// The answers of the operations on one list, in numbers.
ghost use Rattle.std.specs.Prelude.{◌≡◌, map, length};
ghost use Rattle.parsing.specs.Patterns.{var_of, all_nots};
ghost use Rattle.parsing.specs.Vars.{vars_of, placeholders_read};
ghost use Rattle.ssr.specs.Lists.{padded_to, no_name, name_of, tokens_of, code_written};

use errors::Refusal;
use parsing::patterns::{Pattern, Placeholder};

// A placeholder: the bytes of its name in the list's text, and how many constraints it has.
#[repr(C)]
#[derive(Clone, Copy)]
pub struct NamedPlaceholder {
    pub start: usize,
    pub end: usize,
    pub constraints: usize,
}

// The answer of reading tokens: 01's number, and the placeholders in list order.
#[repr(C)]
#[derive(Clone, Copy)]
pub struct ReadTokens {
    pub refusal: u32,
    pub count: usize,
    pub placeholders: [NamedPlaceholder; 8],
    pub constraints: usize,
    pub nots: [u8; 50],
}

const NO_NAME: NamedPlaceholder = NamedPlaceholder {
    start: 0,
    end: 0,
    constraints: 0,
};

// A placeholder's name.
impl From<&Placeholder> for NamedPlaceholder {
    ghost from_gives = { λ placeholder numbers. numbers ≡ name_of (var_of placeholder.now) };

    fn from(placeholder: &Placeholder) -> NamedPlaceholder {
        NamedPlaceholder {
            start: placeholder.name.start,
            end: placeholder.name.end,
            constraints: placeholder.nots.len(),
        }
    }
}

// The names of a pattern's placeholders.
fn names_of(pattern: &Pattern<'_>) -> [NamedPlaceholder; 8]
    ensures { result ≡ padded_to 8 no_name (map name_of (vars_of pattern.now)) }
{
    let mut names = [NO_NAME; 8];
    for (i, placeholder) in pattern.placeholders.as_slice().iter().enumerate() {
        names[i] = NamedPlaceholder::from(placeholder);
    }
    names
}

// Its constraints in turn, and how many they are.
fn constraints_of(pattern: &Pattern<'_>) -> ([u8; 50], usize)
    ensures { result ≡ (padded_to 50 0 (all_nots (vars_of pattern.now)), length (all_nots (vars_of pattern.now))) }
{
    let mut nots = [0; 50];
    let mut count = 0;
    for placeholder in pattern.placeholders.as_slice() {
        let end = count + placeholder.nots.len();
        nots[count..end].copy_from_slice(placeholder.nots.as_slice());
        count = end;
    }
    (nots, count)
}

// Reading tokens.
impl From<Result<Pattern<'_>, Refusal>> for ReadTokens {
    ghost from_gives = { λ answer numbers. numbers ≡ tokens_of (placeholders_read answer) };

    fn from(answer: Result<Pattern<'_>, Refusal>) -> ReadTokens {
        match answer {
            Err(refused) => ReadTokens {
                refusal: u32::from(refused),
                count: 0,
                placeholders: [NO_NAME; 8],
                constraints: 0,
                nots: [0; 50],
            },
            Ok(pattern) => {
                let (nots, constraints) = constraints_of(&pattern);
                ReadTokens {
                    refusal: 0,
                    count: pattern.placeholders.len(),
                    placeholders: names_of(&pattern),
                    constraints,
                    nots,
                }
            }
        }
    }
}

// The answer of writing raw code: 01's number, and the length of the code.
#[repr(C)]
#[derive(Clone, Copy)]
pub struct RawCode {
    pub refusal: u32,
    pub length: usize,
}

// Writing raw code.
impl From<Result<usize, Refusal>> for RawCode {
    ghost from_gives = { λ written numbers. numbers ≡ code_written written };

    fn from(written: Result<usize, Refusal>) -> RawCode {
        match written {
            Ok(length) => RawCode { refusal: 0, length },
            Err(refused) => RawCode {
                refusal: u32::from(refused),
                length: 0,
            },
        }
    }
}
