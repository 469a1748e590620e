// The fields of record lists by name. Without a heap there is no map: a name is looked for among the code's siblings, or the pattern's.
#![tactic(auto)]

pub mod ordered_fields; // ordered_fields.rt: record lists that start over

ghost use Rattle.std.specs.Prelude.{◌≡◌};
ghost use Rattle.syntax.specs.Views.{elems_of, IsWithin};
ghost use Rattle.matcher.specs.Matcher.{matcher_of};
ghost use Rattle.record_fields.specs.Fields.{pattern_name, has_name, is_named, is_taken, field_name, is_field, last_field, is_asked, are_asked, NameIs, FieldIs};

use matcher::token_matching::TokenText;
use matcher::{Matcher, Siblings};
use syntax::kinds::{Kinds, RECORD_EXPR_FIELD};
use syntax::parts::Part;

// What one of the pattern's siblings finds in the code: nothing where it has no name or a field before it took the name, else the last field of
// the name, empty where there is none.
#[derive(Clone, Copy)]
pub enum Field<'a> {
    Unnamed,
    Taken,
    Last(Part<'a>),
}

// The name that a token is.
fn name_in<'t>(token: Part, text: &'t [u8]) -> Option<TokenText<'t>>
    ensures { NameIs text.now (elems_of token.entry) result }
{
    if token.is_empty() {
        return None;
    }
    Some(TokenText::of(token, text))
}

// The part of the name that the first of the pattern's siblings has; empty where it has none.
#[tactic(auto, using(matcher::proofs::NameLaws::no_name))]
pub fn pattern_name(q: Part) -> Part
    ensures value { elems_of result ≡ pattern_name (elems_of q.entry) }
    ensures result_in_bounds { IsWithin result q.entry }
{
    if q.is_node() {
        return q.children().only_ident();
    }
    q.none()
}

// Its name.
pub fn name_of<'a>(x: &Matcher<'a>, q: Part) -> Option<TokenText<'a>>
    ensures { NameIs x.now.rule.now (pattern_name (elems_of q.entry)) result }
{
    name_in(pattern_name(q), x.rule)
}

// Whether it has a name.
fn has_name(x: &Matcher, q: Part, name: TokenText) -> bool
    ensures { result ≡ has_name (matcher_of x.now) name.entry.kind name.entry.text.now (elems_of q.entry) }
{
    match name_of(x, q) {
        Some(own) => own.is_same_name(name),
        None => false,
    }
}

// Whether one of the pattern's siblings has a name.
#[tactic(auto, using(crate::proofs::FieldLaws::named_here, crate::proofs::FieldLaws::named_rest, crate::proofs::FieldLaws::named_gone))]
pub fn is_named(x: &Matcher, part: Part, name: TokenText) -> bool
    ensures { result ≡ is_named (matcher_of x.now) name.entry.kind name.entry.text.now (elems_of part.entry) }
{
    for q in part {
        if has_name(x, q, name) {
            return true;
        }
    }
    false
}

// Whether one of those before the element of a number has it.
#[tactic(auto, using(crate::proofs::FieldLaws::taken_here, crate::proofs::FieldLaws::taken_rest, crate::proofs::FieldLaws::taken_past, crate::proofs::FieldLaws::taken_gone))]
pub fn is_taken(x: &Matcher, part: Part, number: usize, name: TokenText) -> bool
    ensures { result ≡ is_taken (matcher_of x.now) number name.entry.kind name.entry.text.now (elems_of part.entry) }
{
    for q in part {
        if number <= q.number {
            return false;
        }
        if has_name(x, q, name) {
            return true;
        }
    }
    false
}

// The part of the name of the first of the code's siblings; empty where it is no field or has no name.
#[tactic(auto, using(crate::proofs::FieldLaws::field_number, matcher::proofs::NameLaws::no_name))]
fn field_name<'a>(x: &Matcher<'a>, c: Part) -> Part<'a>
    ensures { elems_of result ≡ field_name (matcher_of x.now) (elems_of c.entry) }
{
    if c.is_node_in(Kinds::one(RECORD_EXPR_FIELD)) {
        return x.field_name(c.number);
    }
    Part::new(&[])
}

// Whether it is a field of a name.
fn is_field(x: &Matcher, c: Part, name: TokenText) -> bool
    ensures { result ≡ is_field (matcher_of x.now) name.entry.kind name.entry.text.now (elems_of c.entry) }
{
    match name_in(field_name(x, c), x.file) {
        Some(own) => name.is_same_name(own),
        None => false,
    }
}

// The last of the code's siblings that is a field of a name, with what follows it; empty where there is none.
#[tactic(auto, using(crate::proofs::FieldLaws::last_start, crate::proofs::FieldLaws::last_here, crate::proofs::FieldLaws::last_rest, crate::proofs::FieldLaws::last_gone, matcher::proofs::NameLaws::no_name))]
pub fn find_field<'c>(x: &Matcher, part: Part<'c>, name: TokenText) -> Part<'c>
    ensures value { elems_of result ≡ last_field (matcher_of x.now) name.entry.kind name.entry.text.now (elems_of part.entry) }
    ensures result_in_bounds { IsWithin result part.entry }
{
    let mut last = part.none();
    for c in part {
        if is_field(x, c, name) {
            last = c;
        }
    }
    last
}

// Whether the first of the code's siblings, where it has a name, is named by one of the pattern's.
fn is_asked(x: &Matcher, ps: Part, c: Part) -> bool
    ensures { result ≡ is_asked (matcher_of x.now) (elems_of ps.entry) (elems_of c.entry) }
{
    match name_in(field_name(x, c), x.file) {
        Some(own) => is_named(x, ps, own),
        None => true,
    }
}

// Whether every one of the code's siblings that has a name is named by one of the pattern's.
#[tactic(auto, using(crate::proofs::FieldLaws::asked_not, crate::proofs::FieldLaws::asked_rest, crate::proofs::FieldLaws::asked_gone))]
pub fn are_asked(x: &Matcher, lists: Siblings) -> bool
    ensures { result ≡ are_asked (matcher_of x.now) (elems_of lists.entry.p) (elems_of lists.entry.c) }
{
    for c in lists.c {
        if !is_asked(x, lists.p, c) {
            return false;
        }
    }
    true
}

// The field of the code that one of the pattern's siblings asks for.
pub fn field_for<'a>(x: &Matcher, lists: Siblings<'a>, q: Part) -> Field<'a>
    ensures { FieldIs (matcher_of x.now) lists.entry (elems_of q.entry) result }
{
    let Some(name) = name_of(x, q) else {
        return Field::Unnamed;
    };
    if is_taken(x, lists.p, q.number, name) {
        return Field::Taken;
    }
    Field::Last(find_field(x, lists.c, name))
}
