// Writing raw code: `as_rust_code` of docs/src/src/parsing.rs.
#![tactic(auto)]

ghost use Rattle.std.specs.Prelude.{◌≡◌, length, take};
ghost use Rattle.words.specs.Buffer.{used_of, filled};
ghost use Rattle.parsing.specs.Reading.{reading};
ghost use Rattle.parsing.specs.Patterns.{var_of};
ghost use Rattle.parsing.specs.Vars.{vars_of};
ghost use Rattle.rust_code.specs.RawCode.{code_answer, code_bytes, written_length};
ghost use Rattle.rust_code.specs.Segments.{segment, segments, Lays};
ghost use Rattle.rust_code.specs.StandIns.{stand_in_position};

use errors::Refusal;
use parsing::patterns::{Pattern, Placeholder};
use parsing::reading;
use tokens::TokenList;
use words::{buffer, slices, texts};

pub mod tree_text; // tree_text.rt: comparing a tree's text with its list

// Lays the text before a placeholder, from a byte on, and its stand-in name.
fn lay_placeholder(
    out: &mut [u8],
    at: usize,
    text: &[u8],
    from: usize,
    placeholder: &Placeholder,
) -> Option<usize>
    ensures { Lays out.old at (segment text.now from (var_of placeholder.now)) result out.new }
{
    let before = slices::part_of(text, from, placeholder.whole.start);
    let prefix_at = buffer::put(out, at, before)?;
    let name_at = buffer::put(out, prefix_at, texts::STAND_IN_PREFIX)?;
    buffer::put(out, name_at, placeholder.name.of(text))
}

// Lays the raw code of a list from the buffer's front.
fn lay_code(out: &mut [u8], pattern: &Pattern<'_>) -> Option<usize>
    ensures { Lays out.old 0 (segments pattern.now.text.now (length pattern.now.text.now) 0 (vars_of pattern.now)) result out.new }
{
    let text = pattern.text;
    let mut at = 0;
    let mut from = 0;
    for placeholder in pattern.placeholders.as_slice() {
        at = lay_placeholder(out, at, text, from, placeholder)?;
        from = placeholder.whole.end;
    }
    buffer::put(out, at, slices::part_of(text, from, text.len()))
}

// The raw code of a list, in a buffer that has no other use, or the refusal of the list, or 16.
fn write_code(list: TokenList, out: &mut [u8]) -> Result<usize, Refusal>
    ensures value { result ≡ code_answer (length out.old) list.entry.text.now (reading list.entry.words.now list.entry.text.now) }
    ensures bytes { take (written_length result) out.new ≡ code_bytes (length out.old) list.entry.text.now (reading list.entry.words.now list.entry.text.now) }
{
    let pattern = reading::parse_pattern(list)?;
    lay_code(out, &pattern).ok_or(Refusal::DoesNotFit)
}

// Writing raw code: the code and then 0 in the used part of the buffer, or the refusal of the list, or 16.
pub fn as_rust_code(list: TokenList, out: &mut [u8]) -> Result<usize, Refusal>
    ensures value { result ≡ code_answer (used_of (length out.old)) list.entry.text.now (reading list.entry.words.now list.entry.text.now) }
    ensures out_after { out.new ≡ filled out.old (code_bytes (used_of (length out.old)) list.entry.text.now (reading list.entry.words.now list.entry.text.now)) }
{
    let end = buffer::used(out.len());
    let written = write_code(list, &mut out[..end]);
    buffer::finish(out, written.unwrap_or(0));
    written
}

// The placeholder whose stand-in name a text is.
pub fn find_stand_in(pattern: &Pattern<'_>, x: &[u8]) -> Option<usize>
    ensures { result ≡ stand_in_position pattern.now.text.now (vars_of pattern.now) x.now }
{
    let name = x.strip_prefix(texts::STAND_IN_PREFIX)?;
    pattern.find_name(name)
}
