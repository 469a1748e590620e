// The text of a rule's tree: its list's raw code without WHITESPACE tokens at its ends.
ghost use Rattle.std.specs.Prelude.{◌≡◌, ◌≤◌, List, true, length, option_map};
ghost use Rattle.words.specs.Texts.{same_text};
ghost use Rattle.tokens.specs.Tokens.{is_token_list, tokens_from};
ghost use Rattle.parsing.specs.Reading.{Element, vars, read, reading};
ghost use Rattle.parsing.specs.Patterns.{var_of};
ghost use Rattle.parsing.specs.Vars.{vars_of};
ghost use Rattle.rust_code.specs.RawCode.{tree_text};
ghost use Rattle.rust_code.specs.Trim.{Trimmed};
ghost use Rattle.rust_code.specs.Segments.{segment, segments, Strips};

use parsing::patterns::{Pattern, Placeholder};
use syntax::kinds::WHITESPACE;
use tokens::TokenList;
use words::slices;
use words::texts::{Range, STAND_IN_PREFIX};

// What follows in a text the code up to and with a placeholder, where the text begins with it.
fn strip_placeholder<'a>(
    text: &[u8],
    from: usize,
    placeholder: &Placeholder,
    code: &'a [u8],
) -> Option<&'a [u8]>
    ensures { Strips code.now (segment text.now from (var_of placeholder.now)) (option_map (λ rest. rest.now) result) }
{
    code.strip_prefix(slices::part_of(text, from, placeholder.whole.start))?
        .strip_prefix(STAND_IN_PREFIX)?
        .strip_prefix(placeholder.name.of(text))
}

// Whether a text is the code of a range of the list's text.
fn is_code_of(text: &[u8], range: Range, pattern: &Pattern<'_>, code: &[u8]) -> bool
    ensures { result ≡ same_text (segments text.now range.end range.start (vars_of pattern.now)) code.now }
{
    let mut from = range.start;
    let mut left = code;
    for placeholder in pattern.placeholders.as_slice() {
        let Some(rest) = strip_placeholder(text, from, placeholder, left) else {
            return false;
        };
        left = rest;
        from = placeholder.whole.end;
    }
    slices::part_of(text, from, range.end) == left
}

// The range of a list's text between the WHITESPACE tokens at its ends.
fn trimmed(list: TokenList) -> Range
    requires { length list.words.now ≤ 255 }
    ensures { Trimmed (tokens_from list.entry.words.now 0) result }
{
    let mut inner: Option<Range> = None;
    for token in list.tokens() {
        if token.kind != WHITESPACE {
            let start = inner.unwrap_or(token.range).start;
            inner = Some(Range {
                start,
                end: token.range.end,
            });
        }
    }
    inner.unwrap_or_default()
}

// Whether a text is a read list's raw code without WHITESPACE tokens at its ends. The code is not built.
pub fn is_tree_text(list: TokenList, pattern: &Pattern<'_>, code: &[u8]) -> bool
    requires { is_token_list list.words.now list.text.now ≡ true }
    ensures { (es : List Element) → reading list.entry.words.now list.entry.text.now ≡ read es → vars es ≡ vars_of pattern.now → result ≡ same_text (tree_text list.entry.text.now es) code.now }
{
    is_code_of(list.text, trimmed(list), pattern, code)
}
