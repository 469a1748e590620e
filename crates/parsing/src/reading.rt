// Reading a list token by token.
ghost use Rattle.std.specs.Prelude.{◌≡◌, ◌≤◌, true, length, IfOk, OnOk};
ghost use Rattle.tokens.specs.Tokens.{is_token_list};
ghost use Rattle.parsing.specs.Vars.{placeholders_read};
ghost use Rattle.parsing.specs.Reading.{dollar, brace, is_text, placeholders};
ghost use Rattle.parsing.specs.Steps.{TextRead, KindRead, ConstraintRead, BracesRead, PlaceholderRead};

use crate::arrays::Nots;
use crate::patterns::{Pattern, Placeholder};
use errors::Refusal;
use syntax::kinds::{COLON, DOLLAR, IDENT, L_CURLY, R_CURLY};
use tokens::{Token, TokenList, Tokens};
use words::texts::Range;

// A list while it is read: the tokens that are left, and the text of all.
#[derive(Drop)]
struct Reader<'a> {
    tokens: Tokens<'a>,
    text: &'a [u8],
}

impl<'a> Reader<'a> {
    // Whether a token's text is a word.
    fn says(&self, token: Token, word: &[u8]) -> bool
        ensures { result ≡ is_text self.now.text.now token word.now }
    {
        token.text(self.text) == word
    }

    // Passes `(` or `)`, where it stands next.
    fn pass(&mut self, parenthesis: &[u8]) -> Result<(), Refusal>
        ensures read { TextRead self.old.text.now parenthesis.now self.old.tokens result self.new.tokens }
        ensures text { self.new.text ≡ self.old.text }
    {
        match self.tokens.next() {
            Some(t) if self.says(t, parenthesis) => Ok(()),
            _ => Err(Refusal::MissingParenthesis),
        }
    }

    // Behind `kind`: `(`, an IDENT, `)`, and only then what the IDENT says.
    fn read_kind(&mut self) -> Result<(), Refusal>
        ensures read { KindRead self.old.text.now self.old.tokens result self.new.tokens }
        ensures text { self.new.text ≡ self.old.text }
    {
        self.pass(b"(")?;
        let Some(name) = self.tokens.next() else {
            return Err(Refusal::NoKindIdent);
        };
        if name.kind != IDENT {
            return Err(Refusal::NoKindIdent);
        }
        self.pass(b")")?;
        if self.says(name, b"literal") {
            return Ok(());
        }
        Err(Refusal::UnknownKind)
    }

    // A constraint: how many `not`s stand around its `kind(literal)`.
    fn read_constraint(&mut self) -> Result<u8, Refusal>
        requires { length self.old.tokens ≤ 255 }
        ensures read { ConstraintRead self.old.text.now self.old.tokens result self.new.tokens }
        ensures text { self.new.text ≡ self.old.text }
    {
        let Some(token) = self.tokens.next() else {
            return Err(Refusal::EndsBeforeConstraint);
        };
        if self.says(token, b"kind") {
            self.read_kind()?;
            return Ok(0);
        }
        if self.says(token, b"not") {
            self.pass(b"(")?;
            let nots = self.read_constraint()?;
            self.pass(b")")?;
            return Ok(nots + 1);
        }
        Err(Refusal::UnsupportedConstraint)
    }

    // In braces, behind the first token: the constraints, and the byte behind `}`.
    fn read_constraints(&mut self) -> Result<(Nots, usize), Refusal>
        requires { length self.old.tokens ≤ 252 }
        ensures read { BracesRead self.old.text.now self.old.tokens result self.new.tokens }
        ensures text { self.new.text ≡ self.old.text }
    {
        let mut nots = Nots::new();
        while let Some(token) = self.tokens.next() {
            match token.kind {
                COLON => nots.push(self.read_constraint()?),
                R_CURLY => return Ok((nots, token.range.end)),
                _ => return Err(Refusal::UnexpectedToken),
            }
        }
        Err(Refusal::EndsBeforeClosingBrace)
    }

    // Behind `${`: one token, which is the name if it is an IDENT, then constraints and `}`.
    fn read_braces(&mut self, start: usize) -> Result<Placeholder, Refusal>
        requires { length self.old.tokens ≤ 253 }
        ensures read { PlaceholderRead self.old.text.now (brace start) self.old.tokens result self.new.tokens }
        ensures text { self.new.text ≡ self.old.text }
    {
        let Some(first) = self.tokens.next() else {
            return Err(Refusal::EndsAfterBrace);
        };
        let (nots, end) = self.read_constraints()?;
        if first.kind != IDENT {
            return Err(Refusal::NoName);
        }
        Ok(Placeholder {
            whole: Range { start, end },
            name: first.range,
            nots,
        })
    }

    // Behind the `$` that starts at a byte: a name, or braces.
    fn read_placeholder(&mut self, start: usize) -> Result<Placeholder, Refusal>
        requires { length self.old.tokens ≤ 254 }
        ensures read { PlaceholderRead self.old.text.now (dollar start) self.old.tokens result self.new.tokens }
        ensures text { self.new.text ≡ self.old.text }
    {
        let Some(token) = self.tokens.next() else {
            return Err(Refusal::NoName);
        };
        match token.kind {
            IDENT => Ok(Placeholder {
                whole: Range {
                    start,
                    end: token.range.end,
                },
                name: token.range,
                nots: Nots::new(),
            }),
            L_CURLY => self.read_braces(start),
            _ => Err(Refusal::NeitherNameNorBrace),
        }
    }
}

// Reading tokens: the placeholders in list order, or the first refusal met from the left.
pub fn parse_pattern(list: TokenList<'_>) -> Result<Pattern<'_>, Refusal>
    ensures value { placeholders_read result ≡ placeholders list.entry.words.now list.entry.text.now }
    ensures text { IfOk result (λ p. p.text.now ≡ list.entry.text.now) }
    ensures formed { OnOk result (is_token_list list.entry.words.now list.entry.text.now ≡ true) }
{
    if !list.is_well_formed() {
        return Err(Refusal::MalformedList);
    }
    let mut pattern = Pattern::new(list.text);
    let mut reader = Reader {
        tokens: list.tokens(),
        text: list.text,
    };
    while let Some(token) = reader.tokens.next() {
        if token.kind == DOLLAR {
            let placeholder = reader.read_placeholder(token.range.start)?;
            pattern.add(placeholder)?;
        }
    }
    Ok(pattern)
}
