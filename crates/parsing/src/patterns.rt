// The placeholders of a list that was read.
ghost use Rattle.std.specs.Prelude.{◌≡◌, ◌+◌, ◌≤◌, [], length};
ghost use Rattle.parsing.specs.Patterns.{placeholders_of, nots_of, var_of, vars_at, all_nots, has_name_text, name_position};

use crate::arrays::{Nots, Placeholders};
use errors::Refusal;
use words::texts::Range;

// A placeholder: its bytes, its name's, and of each constraint how many `not`s stand around `kind(literal)`.
#[derive(Clone, Copy, Default)]
pub struct Placeholder {
    pub whole: Range,
    pub name: Range,
    pub nots: Nots,
}

impl Placeholder {
    // Whether its name is a text.
    fn is_named(&self, text: &[u8], name: &[u8]) -> bool
        ensures { result ≡ has_name_text text.now name.now (var_of self.now) }
    {
        self.name.of(text) == name
    }
}

// The placeholders in list order, and the list's text, where their names stand. A list of 255 tokens has at most fifty constraints.
#[derive(Clone, Copy)]
pub struct Pattern<'a> {
    pub text: &'a [u8],
    pub placeholders: Placeholders,
    ghost eight: { length (placeholders_of placeholders) ≤ 8 },
    ghost fifty: { length (all_nots (vars_at (placeholders_of placeholders))) ≤ 50 },
}

impl<'a> Pattern<'a> {
    ghost use Rattle.parsing.specs.Vars.{vars_of};
    ghost use Rattle.parsing.specs.Steps.{Added};

    // No placeholders of a text.
    pub fn new(text: &'a [u8]) -> Self
        ensures vars { vars_of result ≡ [] }
        ensures text_value { result.text.now ≡ text.now }
    {
        Pattern {
            text,
            placeholders: Placeholders::new(),
        }
    }

    // The first placeholder with a name.
    pub fn find_name(&self, name: &[u8]) -> Option<usize>
        ensures { result ≡ name_position self.now.text.now (vars_of self.now) name.now }
    {
        let text = self.text;
        self.placeholders
            .as_slice()
            .iter()
            .position(|p| p.is_named(text, name))
    }

    // The end of a placeholder: its name must be new, and it the eighth at most.
    pub(crate) fn add(&mut self, placeholder: Placeholder) -> Result<(), Refusal>
        requires { length (all_nots (vars_of self.old)) + length (nots_of placeholder.nots) ≤ 50 }
        ensures added { Added self.old.text.now (vars_of self.old) (var_of placeholder) result (vars_of self.new) }
        ensures text { self.new.text ≡ self.old.text }
    {
        if self.find_name(placeholder.name.of(self.text)).is_some() {
            return Err(Refusal::RepeatedName);
        }
        if 8 <= self.placeholders.len() {
            return Err(Refusal::NinthPlaceholder);
        }
        self.placeholders.push(placeholder);
        Ok(())
    }
}
